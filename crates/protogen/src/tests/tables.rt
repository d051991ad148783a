//! Tables as a person works them out.

use super::texts::Base;

/// A protocol, a mode, and its table.
pub type Worked = (Base, &'static str, &'static str);

pub const WORKED: &[Worked] = &[
    (Base::Mi, "stall", MI_STALL),
    (Base::Mi, "defer", MI_DEFER),
    (Base::Msi, "stall", MSI_STALL),
    (Base::Msi, "defer", MSI_DEFER),
];

const MI_STALL: &str = "table MI stall
state I
state M
state IM_D
state IM_AD
state MI_A
state II_A
on I load send GetS -> IM_D
on I store send GetM -> IM_AD
on I evict skip -> I
on M load hit -> M
on M store hit -> M
on M evict send PutM -> MI_A
on M FwdGet give Data -> I
on IM_D FwdGet stall -> IM_D
on IM_D Data.all fill done -> M
on IM_AD FwdGet stall -> IM_AD
on IM_AD Data.all fill done -> M
on MI_A FwdGet give Data -> II_A
on MI_A PutAck done -> I
on II_A PutAck done -> I
home I
home M
at I GetS.other reply Data -> M
at I GetM.other reply Data -> M
at I evict.none putack -> I
at M GetS.other forward FwdGet -> M
at M GetM.other forward FwdGet -> M
at M evict.owner.last write putack -> I
at M evict.none putack -> M
end
";

const MI_DEFER: &str = "table MI defer
state I
state M
state IM_D
state IM_D_gone
state IM_AD
state IM_AD_gone
state MI_A
state II_A
on I load send GetS -> IM_D
on I store send GetM -> IM_AD
on I evict skip -> I
on M load hit -> M
on M store hit -> M
on M evict send PutM -> MI_A
on M FwdGet give Data -> I
on IM_D FwdGet defer -> IM_D_gone
on IM_D Data.all fill done -> M
on IM_D_gone Data.all fill done serve -> I
on IM_AD FwdGet defer -> IM_AD_gone
on IM_AD Data.all fill done -> M
on IM_AD_gone Data.all fill done serve -> I
on MI_A FwdGet give Data -> II_A
on MI_A PutAck done -> I
on II_A PutAck done -> I
home I
home M
at I GetS.other reply Data -> M
at I GetM.other reply Data -> M
at I evict.none putack -> I
at M GetS.other forward FwdGet -> M
at M GetM.other forward FwdGet -> M
at M evict.owner.last write putack -> I
at M evict.none putack -> M
end
";

const MSI_STALL: &str = "table MSI stall
state I
state S
state M
state IS_D
state IM_AD
state IM_A
state SM_AD
state SM_A
state SI_A
state MI_A
state II_A
on I load send GetS -> IS_D
on I store send GetM -> IM_AD
on I evict skip -> I
on S load hit -> S
on S store send GetM -> SM_AD
on S evict send PutS -> SI_A
on S Inv ack -> I
on M load hit -> M
on M store hit -> M
on M evict send PutM -> MI_A
on M FwdGetS give Data wb -> S
on M FwdGetM give Data -> I
on IS_D Inv stall -> IS_D
on IS_D Data.all fill done -> S
on IM_AD FwdGetS stall -> IM_AD
on IM_AD FwdGetM stall -> IM_AD
on IM_AD Data.all fill done -> M
on IM_AD Data.part fill need -> IM_A
on IM_AD InvAck.more count -> IM_AD
on IM_A FwdGetS stall -> IM_A
on IM_A FwdGetM stall -> IM_A
on IM_A InvAck.more count -> IM_A
on IM_A InvAck.last count done -> M
on SM_AD Inv ack -> IM_AD
on SM_AD FwdGetS stall -> SM_AD
on SM_AD FwdGetM stall -> SM_AD
on SM_AD Data.all fill done -> M
on SM_AD Data.part fill need -> SM_A
on SM_AD InvAck.more count -> SM_AD
on SM_A FwdGetS stall -> SM_A
on SM_A FwdGetM stall -> SM_A
on SM_A InvAck.more count -> SM_A
on SM_A InvAck.last count done -> M
on SI_A Inv ack -> II_A
on SI_A PutAck done -> I
on MI_A FwdGetS give Data wb -> SI_A
on MI_A FwdGetM give Data -> II_A
on MI_A PutAck done -> I
on II_A PutAck done -> I
home I
home S
home M
home S_D
at I GetS.other reply Data -> S
at I GetM.other reply Data -> M
at I evict.none putack -> I
at S GetS.other reply Data -> S
at S GetM.other inv reply Data -> M
at S GetM.sharer inv reply Data -> M
at S evict.sharer.last putack -> I
at S evict.sharer.more putack -> S
at S evict.none putack -> S
at M GetS.other forward FwdGetS -> S_D
at M GetM.other forward FwdGetM -> M
at M evict.owner.last write putack -> I
at M evict.none putack -> M
at S_D GetS stall -> S_D
at S_D GetM stall -> S_D
at S_D evict stall -> S_D
at S_D WbData write -> S
end
";

const MSI_DEFER: &str = "table MSI defer
state I
state S
state M
state IS_D
state IS_D_gone
state IM_AD
state IM_AD_gave
state IM_AD_gone
state IM_A
state IM_A_gave
state IM_A_gone
state SM_AD
state SM_AD_gave
state SM_AD_gone
state SM_A
state SM_A_gave
state SM_A_gone
state SI_A
state MI_A
state II_A
on I load send GetS -> IS_D
on I store send GetM -> IM_AD
on I evict skip -> I
on S load hit -> S
on S store send GetM -> SM_AD
on S evict send PutS -> SI_A
on S Inv ack -> I
on M load hit -> M
on M store hit -> M
on M evict send PutM -> MI_A
on M FwdGetS give Data wb -> S
on M FwdGetM give Data -> I
on IS_D Inv ack -> IS_D_gone
on IS_D Data.all fill done -> S
on IS_D_gone Data.all fill done serve -> I
on IM_AD FwdGetS defer -> IM_AD_gave
on IM_AD FwdGetM defer -> IM_AD_gone
on IM_AD Data.all fill done -> M
on IM_AD Data.part fill need -> IM_A
on IM_AD InvAck.more count -> IM_AD
on IM_AD_gave Data.all fill done serve -> S
on IM_AD_gave Data.part fill need -> IM_A_gave
on IM_AD_gave InvAck.more count -> IM_AD_gave
on IM_AD_gone Data.all fill done serve -> I
on IM_AD_gone Data.part fill need -> IM_A_gone
on IM_AD_gone InvAck.more count -> IM_AD_gone
on IM_A FwdGetS defer -> IM_A_gave
on IM_A FwdGetM defer -> IM_A_gone
on IM_A InvAck.more count -> IM_A
on IM_A InvAck.last count done -> M
on IM_A_gave InvAck.more count -> IM_A_gave
on IM_A_gave InvAck.last count done serve -> S
on IM_A_gone InvAck.more count -> IM_A_gone
on IM_A_gone InvAck.last count done serve -> I
on SM_AD Inv ack -> IM_AD
on SM_AD FwdGetS defer -> SM_AD_gave
on SM_AD FwdGetM defer -> SM_AD_gone
on SM_AD Data.all fill done -> M
on SM_AD Data.part fill need -> SM_A
on SM_AD InvAck.more count -> SM_AD
on SM_AD_gave Data.all fill done serve -> S
on SM_AD_gave Data.part fill need -> SM_A_gave
on SM_AD_gave InvAck.more count -> SM_AD_gave
on SM_AD_gone Data.all fill done serve -> I
on SM_AD_gone Data.part fill need -> SM_A_gone
on SM_AD_gone InvAck.more count -> SM_AD_gone
on SM_A FwdGetS defer -> SM_A_gave
on SM_A FwdGetM defer -> SM_A_gone
on SM_A InvAck.more count -> SM_A
on SM_A InvAck.last count done -> M
on SM_A_gave InvAck.more count -> SM_A_gave
on SM_A_gave InvAck.last count done serve -> S
on SM_A_gone InvAck.more count -> SM_A_gone
on SM_A_gone InvAck.last count done serve -> I
on SI_A Inv ack -> II_A
on SI_A PutAck done -> I
on MI_A FwdGetS give Data wb -> SI_A
on MI_A FwdGetM give Data -> II_A
on MI_A PutAck done -> I
on II_A PutAck done -> I
home I
home S
home M
home S_D
at I GetS.other reply Data -> S
at I GetM.other reply Data -> M
at I evict.none putack -> I
at S GetS.other reply Data -> S
at S GetM.other inv reply Data -> M
at S GetM.sharer inv reply Data -> M
at S evict.sharer.last putack -> I
at S evict.sharer.more putack -> S
at S evict.none putack -> S
at M GetS.other forward FwdGetS -> S_D
at M GetM.other forward FwdGetM -> M
at M evict.owner.last write putack -> I
at M evict.none putack -> M
at S_D GetS stall -> S_D
at S_D GetM stall -> S_D
at S_D evict stall -> S_D
at S_D WbData write -> S
end
";
