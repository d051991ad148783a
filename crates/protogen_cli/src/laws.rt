ghost use Rattle.std.specs.Prelude.{◌≡◌, [], ◌∷◌, codes};
ghost use Rattle.protogen_cli.specs.Replies.{answer};

use crate::status::Status;
use pg_perm::Rule;

/// What is due to small inputs.
pub fn worked_answers()
    ensures no_words { answer [] [] ≡ record { status = Status.Usage; bytes = codes "usage\n" } }
    ensures empty_input { answer (codes "check" ∷ []) []
        ≡ record { status = Status.Text (record { line = 1; rule = Rule.F6 }); bytes = codes "line 1 rule F6\n" } }
    ensures empty_line { answer (codes "check" ∷ []) (codes "protocol MSI\n\n")
        ≡ record { status = Status.Text (record { line = 2; rule = Rule.F1 }); bytes = codes "line 2 rule F1\n" } }
    ensures small_text { answer (codes "check" ∷ []) (codes "protocol P\ncache I out none\nend\n")
        ≡ record { status = Status.Text (record { line = 1; rule = Rule.S2 }); bytes = codes "line 1 rule S2\n" } }
    ensures msi { answer (codes "check" ∷ []) (codes "protocol MSI\ncache I out none\ncache S shared read\ncache M owner write\ndir I idle\ndir S shared\ndir M owned M\nrequest GetS read\nrequest GetM write\nrequest PutS clean\nrequest PutM dirty\nforward Inv inv\nforward FwdGetS share\nforward FwdGetM drop\nreply Data data\ncore I load GetS Data S\ncore I store GetM Data M\ncore S load hit\ncore S store GetM Data M\ncore S evict PutS\ncore M load hit\ncore M store hit\ncore M evict PutM\ntake S Inv I\ntake M FwdGetS Data S\ntake M FwdGetM Data I\nrow I GetS other Data S\nrow I GetM other Data M\nrow S GetS other Data S\nrow S GetM other Data M\nrow S GetM sharer Data M\nrow S evict sharer last I\nrow S evict sharer more S\nrow M GetS other FwdGetS S\nrow M GetM other FwdGetM M\nrow M evict owner last I\nend\n")
        ≡ record { status = Status.Done; bytes = codes "ok\n" } }
    ensures without_take { answer (codes "check" ∷ []) (codes "protocol MSI\ncache I out none\ncache S shared read\ncache M owner write\ndir I idle\ndir S shared\ndir M owned M\nrequest GetS read\nrequest GetM write\nrequest PutS clean\nrequest PutM dirty\nforward Inv inv\nforward FwdGetS share\nforward FwdGetM drop\nreply Data data\ncore I load GetS Data S\ncore I store GetM Data M\ncore S load hit\ncore S store GetM Data M\ncore S evict PutS\ncore M load hit\ncore M store hit\ncore M evict PutM\ntake S Inv I\ntake M FwdGetM Data I\nrow I GetS other Data S\nrow I GetM other Data M\nrow S GetS other Data S\nrow S GetM other Data M\nrow S GetM sharer Data M\nrow S evict sharer last I\nrow S evict sharer more S\nrow M GetS other FwdGetS S\nrow M GetM other FwdGetM M\nrow M evict owner last I\nend\n")
        ≡ record { status = Status.Text (record { line = 4; rule = Rule.S13 }); bytes = codes "line 4 rule S13\n" } }
{}
