//! The texts of the protocols in `protocols/`, byte for byte.

pub const MI: &'static str = "protocol MI
cache I out none
cache M owner write
dir I idle
dir M owned M
request GetS read
request GetM write
request PutM dirty
forward FwdGet drop
reply Data data
core I load GetS Data M
core I store GetM Data M
core M load hit
core M store hit
core M evict PutM
take M FwdGet Data I
row I GetS other Data M
row I GetM other Data M
row M GetS other FwdGet M
row M GetM other FwdGet M
row M evict owner last I
end
";

pub const MSI: &'static str = "protocol MSI
cache I out none
cache S shared read
cache M owner write
dir I idle
dir S shared
dir M owned M
request GetS read
request GetM write
request PutS clean
request PutM dirty
forward Inv inv
forward FwdGetS share
forward FwdGetM drop
reply Data data
core I load GetS Data S
core I store GetM Data M
core S load hit
core S store GetM Data M
core S evict PutS
core M load hit
core M store hit
core M evict PutM
take S Inv I
take M FwdGetS Data S
take M FwdGetM Data I
row I GetS other Data S
row I GetM other Data M
row S GetS other Data S
row S GetM other Data M
row S GetM sharer Data M
row S evict sharer last I
row S evict sharer more S
row M GetS other FwdGetS S
row M GetM other FwdGetM M
row M evict owner last I
end
";

pub const MESI: &'static str = "protocol MESI
cache I out none
cache S shared read
cache E owner write clean
cache M owner write
dir I idle
dir S shared
dir M owned E M
request GetS read
request GetM write
request PutS clean
request PutE clean
request PutM dirty
forward Inv inv
forward FwdGetS share
forward FwdGetM drop
reply Data data
reply DataE data
core I load GetS Data S DataE E
core I store GetM Data M
core S load hit
core S store GetM Data M
core S evict PutS
core E load hit
core E store hit M
core E evict PutE
core M load hit
core M store hit
core M evict PutM
take S Inv I
take E FwdGetS Data S
take E FwdGetM Data I
take M FwdGetS Data S
take M FwdGetM Data I
row I GetS other DataE M
row I GetM other Data M
row S GetS other Data S
row S GetM other Data M
row S GetM sharer Data M
row S evict sharer last I
row S evict sharer more S
row M GetS other FwdGetS S
row M GetM other FwdGetM M
row M evict owner last I
end
";

pub const MOSI: &'static str = "protocol MOSI
cache I out none
cache S shared read
cache O owner read
cache M owner write
dir I idle
dir S shared
dir O mixed O
dir M owned M
request GetS read
request GetM write
request PutS clean
request PutM dirty
request PutO dirty
forward Inv inv
forward FwdGetS keep
forward FwdGetM drop
reply Data data
core I load GetS Data S
core I store GetM Data M
core S load hit
core S store GetM Data M
core S evict PutS
core O load hit
core O store GetM AckCount M
core O evict PutO
core M load hit
core M store hit
core M evict PutM
take S Inv I
take O FwdGetS Data O
take O FwdGetM Data I
take M FwdGetS Data O
take M FwdGetM Data I
row I GetS other Data S
row I GetM other Data M
row S GetS other Data S
row S GetM other Data M
row S GetM sharer Data M
row S evict sharer last I
row S evict sharer more S
row O GetS other FwdGetS O
row O GetM other FwdGetM M
row O GetM sharer FwdGetM M
row O GetM owner count M
row O evict owner last I
row O evict owner more S
row O evict sharer last O
row O evict sharer more O
row M GetS other FwdGetS O
row M GetM other FwdGetM M
row M evict owner last I
end
";

pub const MOESI: &'static str = "protocol MOESI
cache I out none
cache S shared read
cache O owner read
cache E owner write clean
cache M owner write
dir I idle
dir S shared
dir O mixed O
dir M owned E M
request GetS read
request GetM write
request PutS clean
request PutE clean
request PutM dirty
request PutO dirty
forward Inv inv
forward FwdGetS keep
forward FwdGetM drop
reply Data data
reply DataE data
core I load GetS Data S DataE E
core I store GetM Data M
core S load hit
core S store GetM Data M
core S evict PutS
core O load hit
core O store GetM AckCount M
core O evict PutO
core E load hit
core E store hit M
core E evict PutE
core M load hit
core M store hit
core M evict PutM
take S Inv I
take O FwdGetS Data O
take O FwdGetM Data I
take E FwdGetS Data O
take E FwdGetM Data I
take M FwdGetS Data O
take M FwdGetM Data I
row I GetS other DataE M
row I GetM other Data M
row S GetS other Data S
row S GetM other Data M
row S GetM sharer Data M
row S evict sharer last I
row S evict sharer more S
row O GetS other FwdGetS O
row O GetM other FwdGetM M
row O GetM sharer FwdGetM M
row O GetM owner count M
row O evict owner last I
row O evict owner more S
row O evict sharer last O
row O evict sharer more O
row M GetS other FwdGetS O
row M GetM other FwdGetM M
row M evict owner last I
end
";

/// Two owners that may only read, and a load of the writer that moves the block to the reader.
pub const MIGRATORY: &'static str = "protocol Migratory
cache I out none
cache S shared read
cache O owner read
cache P owner read
cache M owner write
dir Idle idle
dir Shared shared
dir Many mixed O
dir Sole owned P O
dir Dirty owned M
request GetS read
request GetM write
request PutS clean
request PutD dirty
forward Inv inv
forward Down share
forward Keep keep
forward Pass drop
reply Data data
reply DataP data
core I load GetS Data S DataP P
core I store GetM Data M DataP M
core S load hit
core S store GetM Data M DataP M
core S evict PutS
core O load hit
core O store GetM AckCount M
core O evict PutD
core P load hit
core P store GetM AckCount M
core P evict PutD
core M load hit
core M store hit
core M evict PutD
take S Inv I
take O Down Data S
take O Keep Data O
take O Pass DataP I
take P Keep Data O
take P Pass DataP I
take M Pass DataP I
row Idle GetS other Data Shared
row Idle GetM other Data Dirty
row Shared GetS other Data Shared
row Shared GetM other Data Dirty
row Shared GetM sharer Data Dirty
row Shared evict sharer last Idle
row Shared evict sharer more Shared
row Many GetS other Down Shared
row Many GetM other Pass Dirty
row Many GetM sharer Pass Dirty
row Many GetM owner count Dirty
row Many evict owner last Idle
row Many evict owner more Shared
row Many evict sharer last Sole
row Many evict sharer more Many
row Sole GetS other Keep Many
row Sole GetM other Pass Dirty
row Sole GetM owner count Dirty
row Sole evict owner last Idle
row Dirty GetS other Pass Sole
row Dirty GetM other Pass Dirty
row Dirty evict owner last Idle
end
";
