//! Texts that each break a rule of the shape, and their first faults.

use super::texts::Base;
use pg_perm::Rule::{self, *};

/// What a case is called, the text of which it is an edit, the lines that are replaced (by none, one or more lines, each with its newline), and the first fault.
pub type Case = (
    &'static str,
    Base,
    &'static [(usize, &'static str)],
    (u32, Rule),
);

// Roles and permissions, the counts of cache states, `clean`.
pub const CASES_1: &[Case] = &[
    (
        "out_with_read",
        Base::Msi,
        &[(2, "cache I out read\n")],
        (2, S1),
    ),
    (
        "shared_with_write",
        Base::Mesi,
        &[(3, "cache S shared write\n")],
        (3, S1),
    ),
    (
        "read_owner_with_none",
        Base::Mosi,
        &[(4, "cache O owner none\n")],
        (4, S1),
    ),
    (
        "second_out_with_read",
        Base::Msi,
        &[(4, "cache M owner write\ncache J out read\n")],
        (5, S1),
    ),
    (
        "second_out",
        Base::Msi,
        &[(4, "cache M owner write\ncache J out none\n")],
        (5, S2),
    ),
    (
        "new_out_in_front_without_lines",
        Base::Mi,
        &[(2, "cache J out none\ncache I out none\n")],
        (2, S8),
    ),
    (
        "whole_new_out_in_front",
        Base::Mi,
        &[
            (2, "cache J out none\ncache I out none\n"),
            (
                11,
                "core J load GetS Data M\ncore J store GetM Data M\ncore I load GetS Data M\n",
            ),
        ],
        (3, S2),
    ),
    (
        "second_shared",
        Base::Msi,
        &[(3, "cache S shared read\ncache T shared read\n")],
        (4, S2),
    ),
    (
        "thirteenth_owner",
        Base::Mi,
        &[
            (
                3,
                "cache M owner write
cache A owner write
cache B owner write
cache C owner write
cache D owner write
cache E owner write
cache F owner write
cache G owner write
cache H owner write
cache J owner write
cache K owner write
cache L owner write
cache N owner write
",
            ),
            (5, "dir M owned M A B C D E F G H J K L N\n"),
            (
                15,
                "core M evict PutM
core A load hit
core A store hit
core A evict PutM
core B load hit
core B store hit
core B evict PutM
core C load hit
core C store hit
core C evict PutM
core D load hit
core D store hit
core D evict PutM
core E load hit
core E store hit
core E evict PutM
core F load hit
core F store hit
core F evict PutM
core G load hit
core G store hit
core G evict PutM
core H load hit
core H store hit
core H evict PutM
core J load hit
core J store hit
core J evict PutM
core K load hit
core K store hit
core K evict PutM
core L load hit
core L store hit
core L evict PutM
core N load hit
core N store hit
core N evict PutM
",
            ),
            (
                16,
                "take M FwdGet Data I
take A FwdGet Data I
take B FwdGet Data I
take C FwdGet Data I
take D FwdGet Data I
take E FwdGet Data I
take F FwdGet Data I
take G FwdGet Data I
take H FwdGet Data I
take J FwdGet Data I
take K FwdGet Data I
take L FwdGet Data I
take N FwdGet Data I
",
            ),
        ],
        (15, S2),
    ),
    (
        "an_owner_for_the_out",
        Base::Msi,
        &[(2, "cache I owner read\n")],
        (1, S2),
    ),
    (
        "a_shared_for_the_out",
        Base::Mi,
        &[(2, "cache I shared read\n")],
        (1, S2),
    ),
    (
        "writer_may_only_read",
        Base::Msi,
        &[(4, "cache M owner read\n")],
        (1, S2),
    ),
    (
        "clean_out",
        Base::Mi,
        &[(2, "cache I out none clean\n")],
        (2, S3),
    ),
    (
        "clean_shared",
        Base::Moesi,
        &[(3, "cache S shared read clean\n")],
        (3, S3),
    ),
    (
        "clean_out_with_read",
        Base::Msi,
        &[(2, "cache I out read clean\n")],
        (2, S1),
    ),
    (
        "clean_shared_without_load",
        Base::Msi,
        &[(3, "cache S shared read clean\n"), (18, "")],
        (3, S3),
    ),
];

// Kinds and lists of directory states.
pub const CASES_2: &[Case] = &[
    (
        "second_idle",
        Base::Msi,
        &[(5, "dir I idle\ndir J idle\n")],
        (6, S4),
    ),
    (
        "idle_lists_an_owner",
        Base::Msi,
        &[(5, "dir I idle M\n")],
        (5, S4),
    ),
    (
        "shared_lists_an_owner",
        Base::Mosi,
        &[(7, "dir S shared O\n")],
        (7, S4),
    ),
    (
        "owned_lists_none",
        Base::Msi,
        &[(7, "dir M owned M\ndir N owned\n")],
        (8, S4),
    ),
    (
        "mixed_lists_none",
        Base::Mosi,
        &[(9, "dir M owned M\ndir N mixed\n")],
        (10, S4),
    ),
    (
        "only_owned_lists_none",
        Base::Msi,
        &[(7, "dir M owned\n")],
        (4, S4),
    ),
    (
        "owner_in_the_list_of_idle_alone",
        Base::Msi,
        &[(5, "dir I idle M\n"), (7, "dir M owned\n")],
        (5, S4),
    ),
    (
        "listed_twice_apart",
        Base::Mesi,
        &[(8, "dir M owned E M E\n")],
        (8, S4),
    ),
    (
        "shared_state_listed",
        Base::Msi,
        &[(7, "dir M owned M S\n")],
        (7, S4),
    ),
    (
        "writer_listed_by_mixed",
        Base::Mosi,
        &[(8, "dir O mixed O M\n")],
        (8, S4),
    ),
    (
        "kind_shared_without_a_shared_state",
        Base::Mi,
        &[(5, "dir M owned M\ndir S shared\n")],
        (6, S4),
    ),
    (
        "kind_mixed_without_a_shared_state",
        Base::Mi,
        &[
            (3, "cache M owner write\ncache N owner read\n"),
            (5, "dir M owned M\ndir N mixed N\n"),
            (
                15,
                "core M evict PutM
core N load hit
core N store GetM AckCount M
core N evict PutM
",
            ),
        ],
        (7, S4),
    ),
    (
        "clean_owner_in_no_list",
        Base::Mesi,
        &[(8, "dir M owned M\n")],
        (4, S4),
    ),
    (
        "no_idle_but_a_second_owned",
        Base::Mi,
        &[(4, "dir I owned M\n")],
        (1, S4),
    ),
    (
        "no_kind_shared_but_a_second_owned",
        Base::Msi,
        &[(6, "dir S owned M\n")],
        (1, S4),
    ),
];

// Classes of requests and forwards.
pub const CASES_3: &[Case] = &[
    (
        "second_read",
        Base::Msi,
        &[(8, "request GetS read\nrequest GetX read\n")],
        (9, S5),
    ),
    (
        "second_write",
        Base::Mi,
        &[(7, "request GetM write\nrequest GetX write\n")],
        (8, S5),
    ),
    (
        "new_read_in_front",
        Base::Msi,
        &[(8, "request GetX read\nrequest GetS read\n")],
        (5, S18),
    ),
    (
        "whole_new_read_in_front",
        Base::Mi,
        &[
            (6, "request GetX read\nrequest GetS read\n"),
            (11, "core I load GetX Data M\n"),
            (17, "row I GetX other Data M\nrow I GetS other Data M\n"),
            (19, "row M GetX other FwdGet M\nrow M GetS other FwdGet M\n"),
        ],
        (7, S5),
    ),
    (
        "no_read",
        Base::Msi,
        &[(8, "request GetS clean\n")],
        (1, S5),
    ),
    (
        "no_write",
        Base::Mi,
        &[(7, "request GetM dirty\n")],
        (1, S5),
    ),
    (
        "second_inv",
        Base::Msi,
        &[(12, "forward Inv inv\nforward Inv2 inv\n")],
        (13, S6),
    ),
    (
        "new_inv_in_front",
        Base::Msi,
        &[(12, "forward Inv2 inv\nforward Inv inv\n")],
        (3, S13),
    ),
    (
        "new_keep_in_front",
        Base::Mosi,
        &[(16, "forward Keep keep\nforward FwdGetS keep\n")],
        (17, S6),
    ),
    (
        "second_drop",
        Base::Mi,
        &[(9, "forward FwdGet drop\nforward FwdGetM drop\n")],
        (10, S6),
    ),
    (
        "inv_without_a_shared_state",
        Base::Mi,
        &[(9, "forward Inv inv\nforward FwdGet drop\n")],
        (9, S6),
    ),
    (
        "shared_state_without_inv",
        Base::Msi,
        &[(12, ""), (24, "")],
        (1, S6),
    ),
    (
        "no_read_and_no_inv",
        Base::Mosi,
        &[(10, "request GetS clean\n"), (15, "forward Inv share\n")],
        (1, S5),
    ),
    (
        "no_writer_and_out_with_read",
        Base::Msi,
        &[(2, "cache I out read\n"), (4, "cache M owner read\n")],
        (1, S2),
    ),
    (
        "no_inv_and_shared_with_none",
        Base::Msi,
        &[(3, "cache S shared none\n"), (12, "forward Inv keep\n")],
        (1, S6),
    ),
];

// Core lines: where evicts and hits stand, and requests.
pub const CASES_4: &[Case] = &[
    (
        "out_evicts",
        Base::Msi,
        &[(17, "core I store GetM Data M\ncore I evict PutS\n")],
        (18, S7),
    ),
    (
        "out_evicts_dirty",
        Base::Moesi,
        &[(22, "core I evict PutM\ncore I load GetS Data S DataE E\n")],
        (22, S7),
    ),
    (
        "shared_asks_for_a_load",
        Base::Msi,
        &[(18, "core S load GetS Data S\n")],
        (18, S7),
    ),
    (
        "clean_writer_asks_for_a_store",
        Base::Mesi,
        &[(25, "core E store GetM Data M\n")],
        (25, S7),
    ),
    (
        "writer_asks_for_a_store",
        Base::Msi,
        &[(22, "core M store GetM Data M\n")],
        (17, S7),
    ),
    (
        "out_load_hits",
        Base::Msi,
        &[(16, "core I load hit\n")],
        (16, S7),
    ),
    (
        "read_owner_store_hits",
        Base::Mosi,
        &[(25, "core O store hit M\n")],
        (25, S7),
    ),
    (
        "load_hit_to_itself",
        Base::Msi,
        &[(18, "core S load hit S\n")],
        (18, S7),
    ),
    (
        "load_hit_moves",
        Base::Mesi,
        &[(24, "core E load hit M\n")],
        (24, S7),
    ),
    (
        "load_by_the_write",
        Base::Msi,
        &[(16, "core I load GetM Data S\n")],
        (16, S7),
    ),
    (
        "store_by_the_read",
        Base::Msi,
        &[(17, "core I store GetS Data M\n")],
        (17, S7),
    ),
    (
        "read_owner_store_by_a_dirty_request",
        Base::Moesi,
        &[(28, "core O store PutO AckCount M\n")],
        (28, S7),
    ),
];

// Core lines: the replies that are asked.
pub const CASES_5: &[Case] = &[
    (
        "load_without_a_reply_of_the_directory",
        Base::Mesi,
        &[(19, "core I load GetS Data S\n")],
        (19, S7),
    ),
    (
        "load_without_a_reply_of_an_owner",
        Base::Mesi,
        &[(19, "core I load GetS DataE E\n")],
        (19, S7),
    ),
    (
        "load_with_a_reply_that_is_not_asked",
        Base::Msi,
        &[
            (15, "reply Data data\nreply DataX data\n"),
            (16, "core I load GetS Data S DataX S\n"),
        ],
        (17, S7),
    ),
    (
        "load_with_a_reply_twice",
        Base::Msi,
        &[(16, "core I load GetS Data S Data S\n")],
        (16, S7),
    ),
    (
        "store_with_a_reply_that_is_not_asked",
        Base::Mesi,
        &[(20, "core I store GetM Data M DataE M\n")],
        (20, S7),
    ),
    (
        "store_with_count",
        Base::Msi,
        &[(17, "core I store GetM AckCount M\n")],
        (17, S7),
    ),
    (
        "read_owner_store_with_data",
        Base::Mosi,
        &[(25, "core O store GetM Data M\n")],
        (25, S7),
    ),
    (
        "read_owner_store_with_count_and_data",
        Base::Moesi,
        &[(28, "core O store GetM AckCount M Data M\n")],
        (28, S7),
    ),
    (
        "row_asks_the_shared_store_for_a_reply",
        Base::Msi,
        &[
            (15, "reply Data data\nreply DataX data\n"),
            (31, "row S GetM sharer DataX M\n"),
        ],
        (20, S7),
    ),
    (
        "read_owner_asks_the_shared_store_for_a_reply",
        Base::Mosi,
        &[
            (18, "reply Data data\nreply DataX data\n"),
            (20, "core I store GetM Data M DataX M\n"),
            (32, "take O FwdGetM DataX I\n"),
        ],
        (23, S7),
    ),
    (
        "count_loses_the_only_reply_of_a_sharer",
        Base::Msi,
        &[(31, "row S GetM sharer count M\n")],
        (19, S7),
    ),
];

// Core lines: replies asked by lines that have a fault themselves; finals.
pub const CASES_6: &[Case] = &[
    (
        "reply_of_an_owned_row_is_asked",
        Base::Mi,
        &[
            (10, "reply Data data\nreply DataX data\n"),
            (19, "row M GetS other DataX M\n"),
        ],
        (12, S7),
    ),
    (
        "reply_of_a_row_not_due_is_asked",
        Base::Msi,
        &[
            (15, "reply Data data\nreply DataX data\n"),
            (33, "row S evict sharer more S\nrow S GetS owner DataX S\n"),
        ],
        (17, S7),
    ),
    (
        "reply_of_a_second_row_is_asked",
        Base::Msi,
        &[
            (15, "reply Data data\nreply DataX data\n"),
            (29, "row S GetS other Data S\nrow S GetS other DataX S\n"),
        ],
        (17, S7),
    ),
    (
        "reply_of_a_second_take_is_asked",
        Base::Msi,
        &[
            (15, "reply Data data\nreply DataX data\n"),
            (25, "take M FwdGetS Data S\ntake M FwdGetS DataX S\n"),
        ],
        (17, S7),
    ),
    (
        "reply_of_an_owner_to_inv_is_asked",
        Base::Msi,
        &[
            (15, "reply Data data\nreply DataX data\n"),
            (26, "take M FwdGetM Data I\ntake M Inv DataX I\n"),
            (34, "row M GetS other FwdGetS S\nrow M GetS owner Inv S\n"),
        ],
        (17, S7),
    ),
    (
        "reply_of_an_owner_row_is_asked_of_no_core_line",
        Base::Msi,
        &[
            (15, "reply Data data\nreply DataX data\n"),
            (28, "row I GetM other Data M\nrow I GetM owner DataX M\n"),
        ],
        (30, S15),
    ),
    (
        "reply_of_a_state_that_is_not_listed_is_not_asked",
        Base::Msi,
        &[
            (15, "reply Data data\nreply DataX data\n"),
            (24, "take S Inv I\ntake S FwdGetS DataX S\n"),
        ],
        (26, S12),
    ),
    (
        "load_final_out",
        Base::Mi,
        &[(11, "core I load GetS Data I\n")],
        (11, S7),
    ),
    (
        "second_load_final_out",
        Base::Mesi,
        &[(19, "core I load GetS Data S DataE I\n")],
        (19, S7),
    ),
    (
        "store_final_shared",
        Base::Msi,
        &[(17, "core I store GetM Data S\n")],
        (17, S7),
    ),
    (
        "store_final_clean",
        Base::Mesi,
        &[
            (20, "core I store GetM Data E\n"),
            (25, "core E store hit E\n"),
        ],
        (20, S7),
    ),
    (
        "store_final_moves_at_a_hit",
        Base::Mesi,
        &[
            (4, "cache E owner write\n"),
            (20, "core I store GetM Data E\n"),
            (26, "core E evict PutM\n"),
        ],
        (20, S7),
    ),
    (
        "read_owner_store_final_moves_at_a_hit",
        Base::Moesi,
        &[
            (5, "cache E owner write\n"),
            (28, "core O store GetM AckCount E\n"),
            (32, "core E evict PutM\n"),
        ],
        (28, S7),
    ),
    (
        "first_store_line_of_the_final_moves",
        Base::Msi,
        &[(22, "core M store hit S\ncore M store hit\n")],
        (17, S7),
    ),
    (
        "store_finals_differ",
        Base::Mesi,
        &[
            (4, "cache E owner write\n"),
            (20, "core I store GetM Data M DataE E\n"),
            (25, "core E store hit\n"),
            (26, "core E evict PutM\n"),
            (36, "row I GetM other DataE M\n"),
        ],
        (20, S7),
    ),
    (
        "shared_store_finals_differ",
        Base::Moesi,
        &[
            (5, "cache E owner write\n"),
            (25, "core S store GetM Data M DataE E\n"),
            (31, "core E store hit\n"),
            (32, "core E evict PutM\n"),
            (47, "row S GetM sharer DataE M\n"),
        ],
        (25, S7),
    ),
];

// Core lines that are missing, and cases that stand twice.
pub const CASES_7: &[Case] = &[
    ("out_without_load", Base::Msi, &[(16, "")], (2, S8)),
    ("out_without_store", Base::Mi, &[(12, "")], (2, S8)),
    ("shared_without_evict", Base::Mosi, &[(23, "")], (3, S8)),
    ("read_owner_without_store", Base::Mosi, &[(25, "")], (4, S8)),
    ("store_final_without_store", Base::Msi, &[(22, "")], (4, S8)),
    (
        "load_hit_twice",
        Base::Mi,
        &[(13, "core M load hit\ncore M load hit\n")],
        (14, S9),
    ),
    (
        "load_hit_twice_and_moves",
        Base::Msi,
        &[(18, "core S load hit\ncore S load hit S\n")],
        (19, S7),
    ),
    (
        "store_hit_twice_and_moves",
        Base::Msi,
        &[(22, "core M store hit\ncore M store hit S\n")],
        (23, S9),
    ),
    (
        "evict_twice",
        Base::Mesi,
        &[(26, "core E evict PutE\ncore E evict PutM\n")],
        (27, S9),
    ),
    (
        "evict_twice_of_another_class",
        Base::Msi,
        &[(20, "core S evict PutS\ncore S evict PutM\n")],
        (21, S9),
    ),
    (
        "take_twice",
        Base::Msi,
        &[(25, "take M FwdGetS Data S\ntake M FwdGetS Data S\n")],
        (26, S9),
    ),
    (
        "row_twice",
        Base::Msi,
        &[(29, "row S GetS other Data S\nrow S GetS other Data S\n")],
        (30, S9),
    ),
    (
        "row_twice_with_another_action",
        Base::Msi,
        &[(34, "row M GetS other FwdGetS S\nrow M GetS other Inv S\n")],
        (35, S9),
    ),
    (
        "evict_row_twice_to_another_state",
        Base::Msi,
        &[(32, "row S evict sharer last I\nrow S evict sharer last S\n")],
        (33, S9),
    ),
    (
        "row_not_due_twice",
        Base::Mi,
        &[(
            18,
            "row I GetM other Data M\nrow I GetM sharer Data M\nrow I GetM sharer Data M\n",
        )],
        (19, S15),
    ),
];

// Store hits and evict requests.
pub const CASES_8: &[Case] = &[
    (
        "clean_writer_stays",
        Base::Mesi,
        &[(25, "core E store hit\n")],
        (25, S10),
    ),
    (
        "store_hit_to_shared",
        Base::Mesi,
        &[(25, "core E store hit S\n")],
        (25, S10),
    ),
    (
        "store_hit_to_another_clean_writer",
        Base::Mesi,
        &[
            (4, "cache E owner write clean\ncache F owner write clean\n"),
            (8, "dir M owned E F M\n"),
            (25, "core E store hit F\n"),
            (
                26,
                "core E evict PutE
core F load hit
core F store hit M
core F evict PutE
",
            ),
            (
                32,
                "take E FwdGetM Data I\ntake F FwdGetS Data S\ntake F FwdGetM Data I\n",
            ),
        ],
        (26, S10),
    ),
    (
        "next_of_a_store_hit_in_one_list_more",
        Base::Mesi,
        &[
            (8, "dir M owned E M\ndir N owned M\n"),
            (
                44,
                "row M evict owner last I
row N GetS other FwdGetS S
row N GetM other FwdGetM M
row N evict owner last I
",
            ),
        ],
        (26, S10),
    ),
    (
        "next_of_a_store_hit_in_one_list_less",
        Base::Mesi,
        &[
            (8, "dir M owned E M\ndir N owned E\n"),
            (
                44,
                "row M evict owner last I
row N GetS other FwdGetS S
row N GetM other FwdGetM M
row N evict owner last I
",
            ),
        ],
        (26, S10),
    ),
    (
        "shared_evicts_dirty",
        Base::Msi,
        &[(20, "core S evict PutM\n")],
        (20, S11),
    ),
    (
        "shared_evicts_by_the_read",
        Base::Mesi,
        &[(23, "core S evict GetS\n")],
        (23, S11),
    ),
    (
        "writer_evicts_clean",
        Base::Msi,
        &[(23, "core M evict PutS\n")],
        (23, S11),
    ),
    (
        "read_owner_evicts_clean",
        Base::Mosi,
        &[(26, "core O evict PutS\n")],
        (26, S11),
    ),
    (
        "clean_owner_evicts_by_the_read",
        Base::Mesi,
        &[(26, "core E evict GetS\n")],
        (26, S11),
    ),
    (
        "clean_owner_is_no_more_clean",
        Base::Mesi,
        &[(4, "cache E owner write\n")],
        (26, S11),
    ),
    (
        "store_hit_to_shared_and_evict_by_the_read",
        Base::Mesi,
        &[(25, "core E store hit S\n"), (26, "core E evict GetS\n")],
        (25, S10),
    ),
];

// Take lines: what isn't due, replies and next states.
pub const CASES_9: &[Case] = &[
    (
        "inv_taken_by_an_owner_twice",
        Base::Msi,
        &[(24, "take S Inv I\ntake M Inv I\ntake M Inv I\n")],
        (25, S12),
    ),
    (
        "forward_of_no_row",
        Base::Msi,
        &[
            (13, "forward FwdGetS share\nforward FwdKeep keep\n"),
            (26, "take M FwdGetM Data I\ntake M FwdKeep Data M\n"),
        ],
        (28, S12),
    ),
    (
        "keep_of_the_rows_of_another_list",
        Base::Mosi,
        &[(50, "row M GetS other FwdGetM M\n")],
        (33, S12),
    ),
    (
        "reply_of_an_owned_read_leaves_the_share",
        Base::Msi,
        &[(34, "row M GetS other Data S\n")],
        (25, S12),
    ),
    (
        "inv_with_a_reply",
        Base::Msi,
        &[(24, "take S Inv Data I\n")],
        (24, S12),
    ),
    (
        "share_without_a_reply",
        Base::Msi,
        &[(25, "take M FwdGetS S\n")],
        (25, S12),
    ),
    (
        "share_to_itself",
        Base::Mesi,
        &[(31, "take E FwdGetS Data E\n")],
        (31, S12),
    ),
    (
        "share_to_out_without_a_shared_state",
        Base::Mi,
        &[
            (9, "forward FwdGetS share\nforward FwdGetM drop\n"),
            (16, "take M FwdGetS Data I\ntake M FwdGetM Data I\n"),
            (19, "row M GetS other FwdGetS I\n"),
            (20, "row M GetM other FwdGetM M\n"),
        ],
        (17, S12),
    ),
    (
        "keep_to_shared",
        Base::Mosi,
        &[(31, "take O FwdGetS Data S\n")],
        (31, S12),
    ),
    (
        "keep_to_a_writer",
        Base::Mosi,
        &[(33, "take M FwdGetS Data M\n")],
        (33, S12),
    ),
    (
        "keep_to_clean",
        Base::Moesi,
        &[(4, "cache O owner read clean\n")],
        (41, S12),
    ),
    (
        "drop_to_shared",
        Base::Msi,
        &[(26, "take M FwdGetM Data S\n")],
        (26, S12),
    ),
];

// Take lines that are missing, and chains of keeps.
pub const CASES_10: &[Case] = &[
    ("shared_without_inv", Base::Msi, &[(24, "")], (3, S13)),
    ("writer_without_share", Base::Msi, &[(25, "")], (4, S13)),
    ("read_owner_without_keep", Base::Mosi, &[(31, "")], (4, S13)),
    (
        "second_listed_owner_without_drop",
        Base::Mesi,
        &[(34, "")],
        (5, S13),
    ),
    (
        "row_not_due_makes_a_keep_due",
        Base::Msi,
        &[
            (13, "forward FwdGetS share\nforward FwdKeep keep\n"),
            (
                36,
                "row M evict owner last I\nrow M GetS sharer FwdKeep S\n",
            ),
        ],
        (4, S13),
    ),
    (
        "row_with_a_wrong_action_makes_a_share_due",
        Base::Mosi,
        &[
            (16, "forward FwdGetS keep\nforward FwdRead share\n"),
            (43, "row O GetM other FwdRead M\n"),
        ],
        (4, S13),
    ),
    (
        "keep_chain_of_two",
        Base::Mosi,
        &[
            (4, "cache O owner read\ncache P owner read\n"),
            (8, "dir O mixed O P\n"),
            (
                26,
                "core O evict PutO
core P load hit
core P store GetM AckCount M
core P evict PutO
",
            ),
            (31, "take O FwdGetS Data P\n"),
            (
                32,
                "take O FwdGetM Data I\ntake P FwdGetS Data P\ntake P FwdGetM Data I\n",
            ),
        ],
        (39, S14),
    ),
    (
        "keep_ring_of_two",
        Base::Mosi,
        &[
            (4, "cache O owner read\ncache P owner read\n"),
            (8, "dir O mixed O P\n"),
            (
                26,
                "core O evict PutO
core P load hit
core P store GetM AckCount M
core P evict PutO
",
            ),
            (31, "take O FwdGetS Data P\n"),
            (
                32,
                "take O FwdGetM Data I\ntake P FwdGetS Data O\ntake P FwdGetM Data I\n",
            ),
        ],
        (35, S14),
    ),
    (
        "keep_chain_of_the_writer",
        Base::Mosi,
        &[
            (4, "cache O owner read\ncache P owner read\n"),
            (8, "dir O mixed O P\n"),
            (
                26,
                "core O evict PutO
core P load hit
core P store GetM AckCount M
core P evict PutO
",
            ),
            (
                32,
                "take O FwdGetM Data I\ntake P FwdGetS Data O\ntake P FwdGetM Data I\n",
            ),
            (33, "take M FwdGetS Data P\n"),
        ],
        (39, S14),
    ),
    (
        "keep_chain_of_the_clean_writer",
        Base::Moesi,
        &[
            (4, "cache O owner read\ncache P owner read\n"),
            (9, "dir O mixed O P\n"),
            (
                29,
                "core O evict PutO
core P load hit
core P store GetM AckCount M
core P evict PutO
",
            ),
            (
                38,
                "take O FwdGetM Data I\ntake P FwdGetS Data O\ntake P FwdGetM Data I\n",
            ),
            (39, "take E FwdGetS Data P\n"),
        ],
        (45, S14),
    ),
    (
        "keep_chain_to_clean",
        Base::Mosi,
        &[
            (4, "cache O owner read clean\ncache P owner read\n"),
            (8, "dir O mixed O P\n"),
            (
                26,
                "core O evict PutO
core P load hit
core P store GetM AckCount M
core P evict PutO
",
            ),
            (31, "take O FwdGetS Data P\n"),
            (
                32,
                "take O FwdGetM Data I\ntake P FwdGetS Data P\ntake P FwdGetM Data I\n",
            ),
        ],
        (39, S12),
    ),
    (
        "shared_without_load_and_inv",
        Base::Msi,
        &[(18, ""), (24, "")],
        (3, S8),
    ),
    (
        "inv_missing_and_listed_twice",
        Base::Msi,
        &[(7, "dir M owned M M\n"), (24, "")],
        (3, S13),
    ),
    (
        "inv_to_shared_and_row_twice",
        Base::Msi,
        &[
            (24, "take S Inv S\n"),
            (29, "row S GetS other Data S\nrow S GetS other Data S\n"),
        ],
        (24, S12),
    ),
];

// Rows that aren't due.
pub const CASES_11: &[Case] = &[
    (
        "owner_leaves_idle",
        Base::Mi,
        &[(18, "row I GetM other Data M\nrow I evict owner last I\n")],
        (19, S15),
    ),
    (
        "sharer_reads_on_shared",
        Base::Msi,
        &[(29, "row S GetS other Data S\nrow S GetS sharer Data S\n")],
        (30, S15),
    ),
    (
        "owner_leaves_shared",
        Base::Mosi,
        &[(41, "row S evict sharer more S\nrow S evict owner last I\n")],
        (42, S15),
    ),
    (
        "owner_reads_on_owned",
        Base::Msi,
        &[(
            34,
            "row M GetS other FwdGetS S\nrow M GetS owner FwdGetS S\n",
        )],
        (35, S15),
    ),
    (
        "sharer_writes_on_owned",
        Base::Msi,
        &[(
            35,
            "row M GetM other FwdGetM M\nrow M GetM sharer FwdGetM M\n",
        )],
        (36, S15),
    ),
    (
        "writer_writes_on_owned",
        Base::Mi,
        &[(20, "row M GetM other FwdGet M\nrow M GetM owner count M\n")],
        (21, S15),
    ),
    (
        "sharer_leaves_owned",
        Base::Moesi,
        &[(60, "row M evict owner last I\nrow M evict sharer last M\n")],
        (61, S15),
    ),
    (
        "owner_leaves_sharers_on_owned",
        Base::Mosi,
        &[(52, "row M evict owner last I\nrow M evict owner more S\n")],
        (53, S15),
    ),
    (
        "sharer_reads_on_mixed",
        Base::Mosi,
        &[(
            42,
            "row O GetS other FwdGetS O\nrow O GetS sharer FwdGetS O\n",
        )],
        (43, S15),
    ),
    (
        "clean_request_in_a_row",
        Base::Msi,
        &[(27, "row I PutS other Data I\nrow I GetS other Data S\n")],
        (27, S15),
    ),
    (
        "dirty_request_in_a_row",
        Base::Mi,
        &[(21, "row M PutM owner count I\nrow M evict owner last I\n")],
        (21, S15),
    ),
    (
        "forward_of_a_row_not_due",
        Base::Msi,
        &[(27, "row I GetS other Data S\nrow I GetS sharer FwdGetS S\n")],
        (28, S15),
    ),
];

// Actions of rows.
pub const CASES_12: &[Case] = &[
    (
        "share_on_idle",
        Base::Msi,
        &[(27, "row I GetS other FwdGetS S\n")],
        (27, S16),
    ),
    (
        "inv_on_shared",
        Base::Msi,
        &[(29, "row S GetS other Inv S\n")],
        (29, S16),
    ),
    (
        "count_to_a_sharer_on_shared",
        Base::Mosi,
        &[(39, "row S GetM sharer count M\n")],
        (39, S16),
    ),
    (
        "reply_to_a_read_on_owned",
        Base::Mi,
        &[(19, "row M GetS other Data M\n")],
        (19, S16),
    ),
    (
        "inv_to_a_read_on_owned",
        Base::Msi,
        &[(25, ""), (34, "row M GetS other Inv S\n")],
        (33, S16),
    ),
    (
        "drop_to_a_read_on_mixed",
        Base::Mosi,
        &[(31, ""), (42, "row O GetS other FwdGetM M\n")],
        (41, S16),
    ),
    (
        "reply_to_a_write_on_owned",
        Base::Mi,
        &[(20, "row M GetM other Data M\n")],
        (20, S16),
    ),
    (
        "share_to_a_write_on_owned",
        Base::Msi,
        &[(26, ""), (35, "row M GetM other FwdGetS M\n")],
        (34, S16),
    ),
    (
        "keep_to_a_write_on_mixed",
        Base::Mosi,
        &[(43, "row O GetM other FwdGetS M\n")],
        (43, S16),
    ),
    (
        "reply_to_a_sharer_on_mixed",
        Base::Mosi,
        &[(44, "row O GetM sharer Data M\n")],
        (44, S16),
    ),
    (
        "drop_to_the_owner_on_mixed",
        Base::Mosi,
        &[(45, "row O GetM owner FwdGetM M\n")],
        (45, S16),
    ),
    (
        "reply_to_the_owner_on_owned",
        Base::Mosi,
        &[
            (9, "dir M owned M\ndir N owned O\n"),
            (
                52,
                "row M evict owner last I
row N GetS other FwdGetS O
row N GetM other FwdGetM M
row N GetM owner Data M
row N evict owner last I
",
            ),
        ],
        (56, S16),
    ),
    (
        "second_row_makes_the_share_due",
        Base::Msi,
        &[(34, "row M GetS other Data S\nrow M GetS other FwdGetS S\n")],
        (34, S16),
    ),
    (
        "count_and_a_wrong_next",
        Base::Msi,
        &[(28, "row I GetM other count S\n")],
        (28, S16),
    ),
];

// Next states of rows of reads.
pub const CASES_13: &[Case] = &[
    (
        "shared_final_to_owned",
        Base::Msi,
        &[(27, "row I GetS other Data M\n")],
        (27, S17),
    ),
    (
        "shared_final_on_shared_to_idle",
        Base::Msi,
        &[(29, "row S GetS other Data I\n")],
        (29, S17),
    ),
    (
        "owner_final_to_shared",
        Base::Mesi,
        &[(35, "row I GetS other DataE S\n")],
        (35, S17),
    ),
    (
        "owner_final_on_shared_to_owned",
        Base::Mesi,
        &[(37, "row S GetS other DataE M\n")],
        (37, S17),
    ),
    (
        "owner_final_to_a_list_without_it",
        Base::Mi,
        &[
            (3, "cache M owner write\ncache N owner write\n"),
            (5, "dir M owned M\ndir N owned N\n"),
            (
                15,
                "core M evict PutM
core N load hit
core N store hit
core N evict PutM
",
            ),
            (16, "take M FwdGet Data I\ntake N FwdGet Data I\n"),
            (17, "row I GetS other Data N\n"),
            (
                21,
                "row M evict owner last I
row N GetS other FwdGet M
row N GetM other FwdGet M
row N evict owner last I
",
            ),
        ],
        (23, S17),
    ),
    (
        "share_to_mixed",
        Base::Mosi,
        &[
            (16, "forward FwdGetS keep\nforward FwdRead share\n"),
            (31, "take O FwdRead Data S\n"),
            (42, "row O GetS other FwdRead O\n"),
        ],
        (43, S17),
    ),
    (
        "share_of_the_first_with_an_owner_final",
        Base::Mesi,
        &[
            (4, "cache E owner write\n"),
            (26, "core E evict PutM\n"),
            (31, "take E FwdGetS DataE S\n"),
        ],
        (42, S17),
    ),
    (
        "share_of_the_second_with_an_owner_final",
        Base::Mesi,
        &[
            (4, "cache E owner write\n"),
            (26, "core E evict PutM\n"),
            (33, "take M FwdGetS DataE S\n"),
        ],
        (42, S17),
    ),
    (
        "keep_on_owned_to_shared",
        Base::Mosi,
        &[(50, "row M GetS other FwdGetS S\n")],
        (50, S17),
    ),
    (
        "keep_on_mixed_to_owned",
        Base::Mosi,
        &[(42, "row O GetS other FwdGetS M\n")],
        (42, S17),
    ),
    (
        "keep_of_the_first_with_an_owner_final",
        Base::Moesi,
        &[
            (21, "reply DataE data\nreply DataX data\n"),
            (22, "core I load GetS Data S DataE E DataX M\n"),
            (39, "take E FwdGetS DataX O\n"),
        ],
        (59, S17),
    ),
    (
        "keep_of_the_second_with_an_owner_final",
        Base::Moesi,
        &[
            (21, "reply DataE data\nreply DataX data\n"),
            (22, "core I load GetS Data S DataE E DataX M\n"),
            (41, "take M FwdGetS DataX O\n"),
        ],
        (59, S17),
    ),
];

// Next states of rows of reads where there are two states of one kind.
pub const CASES_14: &[Case] = &[
    (
        "keep_on_mixed_to_a_list_without_the_kept",
        Base::Mosi,
        &[
            (4, "cache O owner read\ncache P owner read\n"),
            (8, "dir O mixed O\ndir P mixed P\n"),
            (
                26,
                "core O evict PutO
core P load hit
core P store GetM AckCount M
core P evict PutO
",
            ),
            (
                32,
                "take O FwdGetM Data I\ntake P FwdGetS Data P\ntake P FwdGetM Data I\n",
            ),
            (42, "row O GetS other FwdGetS P\n"),
            (
                52,
                "row M evict owner last I
row P GetS other FwdGetS P
row P GetM other FwdGetM M
row P GetM sharer FwdGetM M
row P GetM owner count M
row P evict owner last I
row P evict owner more S
row P evict sharer last P
row P evict sharer more P
",
            ),
        ],
        (49, S17),
    ),
    (
        "keep_to_a_list_without_the_first_kept",
        Base::Moesi,
        &[
            (4, "cache O owner read\ncache P owner read\n"),
            (9, "dir O mixed O\ndir P mixed P\n"),
            (
                29,
                "core O evict PutO
core P load hit
core P store GetM AckCount M
core P evict PutO
",
            ),
            (
                38,
                "take O FwdGetM Data I\ntake P FwdGetS Data P\ntake P FwdGetM Data I\n",
            ),
            (39, "take E FwdGetS Data P\n"),
            (
                60,
                "row M evict owner last I
row P GetS other FwdGetS P
row P GetM other FwdGetM M
row P GetM sharer FwdGetM M
row P GetM owner count M
row P evict owner last I
row P evict owner more S
row P evict sharer last P
row P evict sharer more P
",
            ),
        ],
        (65, S17),
    ),
    (
        "keep_to_a_list_without_the_second_kept",
        Base::Moesi,
        &[
            (4, "cache O owner read\ncache P owner read\n"),
            (9, "dir O mixed O\ndir P mixed P\n"),
            (
                29,
                "core O evict PutO
core P load hit
core P store GetM AckCount M
core P evict PutO
",
            ),
            (
                38,
                "take O FwdGetM Data I\ntake P FwdGetS Data P\ntake P FwdGetM Data I\n",
            ),
            (39, "take E FwdGetS Data P\n"),
            (58, "row M GetS other FwdGetS P\n"),
            (
                60,
                "row M evict owner last I
row P GetS other FwdGetS P
row P GetM other FwdGetM M
row P GetM sharer FwdGetM M
row P GetM owner count M
row P evict owner last I
row P evict owner more S
row P evict sharer last P
row P evict sharer more P
",
            ),
        ],
        (65, S17),
    ),
    (
        "drop_read_to_idle",
        Base::Mi,
        &[(19, "row M GetS other FwdGet I\n")],
        (19, S17),
    ),
    (
        "drop_read_where_a_row_not_due_shares",
        Base::Msi,
        &[
            (34, "row M GetS other FwdGetM M\n"),
            (
                36,
                "row M evict owner last I\nrow M GetS sharer FwdGetS S\n",
            ),
        ],
        (34, S17),
    ),
    (
        "drop_read_to_a_list_without_the_first_final",
        Base::Mi,
        &[
            (3, "cache M owner write\ncache N owner write\n"),
            (5, "dir M owned M N\ndir N owned N\n"),
            (10, "reply Data data\nreply DataN data\n"),
            (11, "core I load GetS Data M DataN N\n"),
            (12, "core I store GetM Data M DataN M\n"),
            (
                15,
                "core M evict PutM
core N load hit
core N store hit
core N evict PutM
",
            ),
            (16, "take M FwdGet Data I\ntake N FwdGet DataN I\n"),
            (19, "row M GetS other FwdGet N\n"),
            (
                21,
                "row M evict owner last I
row N GetS other FwdGet N
row N GetM other FwdGet M
row N evict owner last I
",
            ),
        ],
        (26, S17),
    ),
    (
        "drop_read_to_a_list_without_the_second_final",
        Base::Mi,
        &[
            (3, "cache M owner write\ncache N owner write\n"),
            (5, "dir M owned M\ndir N owned M N\n"),
            (10, "reply Data data\nreply DataN data\n"),
            (11, "core I load GetS Data M DataN N\n"),
            (12, "core I store GetM Data M DataN M\n"),
            (
                15,
                "core M evict PutM
core N load hit
core N store hit
core N evict PutM
",
            ),
            (16, "take M FwdGet Data I\ntake N FwdGet DataN I\n"),
            (
                21,
                "row M evict owner last I
row N GetS other FwdGet M
row N GetM other FwdGet M
row N evict owner last I
",
            ),
        ],
        (29, S17),
    ),
];

// Next states of rows of writes.
pub const CASES_15: &[Case] = &[
    (
        "write_on_idle_to_idle",
        Base::Msi,
        &[(28, "row I GetM other Data I\n")],
        (28, S17),
    ),
    (
        "write_on_owned_to_shared",
        Base::Msi,
        &[(35, "row M GetM other FwdGetM S\n")],
        (35, S17),
    ),
    (
        "write_on_mixed_to_mixed",
        Base::Mosi,
        &[(43, "row O GetM other FwdGetM O\n")],
        (43, S17),
    ),
    (
        "write_of_the_owner_to_mixed",
        Base::Mosi,
        &[(45, "row O GetM owner count O\n")],
        (45, S17),
    ),
    (
        "write_on_idle_to_a_list_without_the_final",
        Base::Mi,
        &[
            (3, "cache M owner write\ncache N owner write\n"),
            (5, "dir M owned M\ndir N owned N\n"),
            (
                15,
                "core M evict PutM
core N load hit
core N store hit
core N evict PutM
",
            ),
            (16, "take M FwdGet Data I\ntake N FwdGet Data I\n"),
            (18, "row I GetM other Data N\n"),
            (
                21,
                "row M evict owner last I
row N GetS other FwdGet M
row N GetM other FwdGet M
row N evict owner last I
",
            ),
        ],
        (24, S17),
    ),
    (
        "write_on_owned_to_a_list_without_the_final",
        Base::Mi,
        &[
            (3, "cache M owner write\ncache N owner write\n"),
            (5, "dir M owned M\ndir N owned N\n"),
            (
                15,
                "core M evict PutM
core N load hit
core N store hit
core N evict PutM
",
            ),
            (16, "take M FwdGet Data I\ntake N FwdGet Data I\n"),
            (20, "row M GetM other FwdGet N\n"),
            (
                21,
                "row M evict owner last I
row N GetS other FwdGet M
row N GetM other FwdGet M
row N evict owner last I
",
            ),
        ],
        (26, S17),
    ),
    (
        "write_of_a_sharer_to_a_list_without_the_final",
        Base::Mosi,
        &[
            (9, "dir M owned M\ndir N owned O\n"),
            (39, "row S GetM sharer Data N\n"),
            (
                52,
                "row M evict owner last I
row N GetS other FwdGetS O
row N GetM other FwdGetM M
row N GetM owner count M
row N evict owner last I
",
            ),
        ],
        (40, S17),
    ),
    (
        "write_of_the_owner_to_a_list_without_the_first_final",
        Base::Mosi,
        &[
            (4, "cache O owner read\ncache P owner read\n"),
            (5, "cache M owner write\ncache W owner write\n"),
            (8, "dir O mixed O P\n"),
            (9, "dir M owned M\ndir W owned W\n"),
            (
                26,
                "core O evict PutO
core P load hit
core P store GetM AckCount W
core P evict PutO
",
            ),
            (
                29,
                "core M evict PutM
core W load hit
core W store hit
core W evict PutM
",
            ),
            (
                32,
                "take O FwdGetM Data I\ntake P FwdGetS Data P\ntake P FwdGetM Data I\n",
            ),
            (
                34,
                "take M FwdGetM Data I\ntake W FwdGetS Data O\ntake W FwdGetM Data I\n",
            ),
            (45, "row O GetM owner count W\n"),
            (
                52,
                "row M evict owner last I
row W GetS other FwdGetS O
row W GetM other FwdGetM M
row W evict owner last I
",
            ),
        ],
        (58, S17),
    ),
    (
        "write_of_the_owner_to_a_list_without_the_second_final",
        Base::Mosi,
        &[
            (4, "cache O owner read\ncache P owner read\n"),
            (5, "cache M owner write\ncache W owner write\n"),
            (8, "dir O mixed O P\n"),
            (9, "dir M owned M\ndir W owned W\n"),
            (
                26,
                "core O evict PutO
core P load hit
core P store GetM AckCount W
core P evict PutO
",
            ),
            (
                29,
                "core M evict PutM
core W load hit
core W store hit
core W evict PutM
",
            ),
            (
                32,
                "take O FwdGetM Data I\ntake P FwdGetS Data P\ntake P FwdGetM Data I\n",
            ),
            (
                34,
                "take M FwdGetM Data I\ntake W FwdGetS Data O\ntake W FwdGetM Data I\n",
            ),
            (
                52,
                "row M evict owner last I
row W GetS other FwdGetS O
row W GetM other FwdGetM M
row W evict owner last I
",
            ),
        ],
        (58, S17),
    ),
];

// Next states of rows of evicts.
pub const CASES_16: &[Case] = &[
    (
        "last_owner_of_owned_to_owned",
        Base::Mi,
        &[(21, "row M evict owner last M\n")],
        (21, S17),
    ),
    (
        "last_owner_of_mixed_to_shared",
        Base::Mosi,
        &[(46, "row O evict owner last S\n")],
        (46, S17),
    ),
    (
        "last_sharer_of_shared_to_shared",
        Base::Msi,
        &[(32, "row S evict sharer last S\n")],
        (32, S17),
    ),
    (
        "owner_of_mixed_to_mixed",
        Base::Mosi,
        &[(47, "row O evict owner more O\n")],
        (47, S17),
    ),
    (
        "sharer_of_shared_to_idle",
        Base::Msi,
        &[(33, "row S evict sharer more I\n")],
        (33, S17),
    ),
    (
        "sharer_of_mixed_to_shared",
        Base::Mosi,
        &[(49, "row O evict sharer more S\n")],
        (49, S17),
    ),
    (
        "sharer_of_mixed_to_owned",
        Base::Mosi,
        &[
            (9, "dir M owned M\ndir N owned O\n"),
            (49, "row O evict sharer more N\n"),
            (
                52,
                "row M evict owner last I
row N GetS other FwdGetS O
row N GetM other FwdGetM M
row N GetM owner count M
row N evict owner last I
",
            ),
        ],
        (50, S17),
    ),
    (
        "sharer_of_mixed_to_a_shorter_mixed",
        Base::Mosi,
        &[
            (4, "cache O owner read\ncache P owner read\n"),
            (8, "dir O mixed O P\ndir Q mixed O\n"),
            (
                26,
                "core O evict PutO
core P load hit
core P store GetM AckCount M
core P evict PutO
",
            ),
            (
                32,
                "take O FwdGetM Data I\ntake P FwdGetS Data P\ntake P FwdGetM Data I\n",
            ),
            (49, "row O evict sharer more Q\n"),
            (
                52,
                "row M evict owner last I
row Q GetS other FwdGetS Q
row Q GetM other FwdGetM M
row Q GetM sharer FwdGetM M
row Q GetM owner count M
row Q evict owner last I
row Q evict owner more S
row Q evict sharer last Q
row Q evict sharer more Q
",
            ),
        ],
        (56, S17),
    ),
    (
        "last_sharer_of_mixed_to_a_shorter_owned",
        Base::Mosi,
        &[
            (4, "cache O owner read\ncache P owner read\n"),
            (8, "dir O mixed P O\n"),
            (9, "dir M owned M\ndir N owned O\n"),
            (
                26,
                "core O evict PutO
core P load hit
core P store GetM AckCount M
core P evict PutO
",
            ),
            (
                32,
                "take O FwdGetM Data I\ntake P FwdGetS Data P\ntake P FwdGetM Data I\n",
            ),
            (48, "row O evict sharer last N\n"),
            (
                52,
                "row M evict owner last I
row N GetS other FwdGetS O
row N GetM other FwdGetM M
row N GetM owner count M
row N evict owner last I
",
            ),
        ],
        (55, S17),
    ),
    (
        "owned_next_and_an_inv_behind",
        Base::Msi,
        &[
            (27, "row I GetS other Data M\n"),
            (29, "row S GetS other Inv S\n"),
        ],
        (27, S17),
    ),
];

// Rows that are missing.
pub const CASES_17: &[Case] = &[
    ("idle_without_read", Base::Msi, &[(27, "")], (5, S18)),
    ("idle_without_write", Base::Mi, &[(18, "")], (4, S18)),
    ("kind_shared_without_read", Base::Msi, &[(29, "")], (6, S18)),
    (
        "kind_shared_without_write",
        Base::Msi,
        &[(30, "")],
        (6, S18),
    ),
    (
        "kind_shared_without_write_of_a_sharer",
        Base::Msi,
        &[(31, "")],
        (6, S18),
    ),
    (
        "kind_shared_without_last_sharer",
        Base::Mesi,
        &[(40, "")],
        (7, S18),
    ),
    (
        "kind_shared_without_sharer_of_more",
        Base::Mosi,
        &[(41, "")],
        (7, S18),
    ),
    ("owned_without_read", Base::Msi, &[(34, "")], (7, S18)),
    ("owned_without_write", Base::Mi, &[(20, "")], (5, S18)),
    (
        "owned_without_last_owner",
        Base::Mesi,
        &[(44, "")],
        (8, S18),
    ),
    (
        "owned_without_write_of_its_read_owner",
        Base::Mosi,
        &[
            (9, "dir M owned M\ndir N owned O\n"),
            (
                52,
                "row M evict owner last I
row N GetS other FwdGetS O
row N GetM other FwdGetM M
row N evict owner last I
",
            ),
        ],
        (10, S18),
    ),
    (
        "owned_of_both_without_write_of_its_read_owner",
        Base::Mosi,
        &[(9, "dir M owned M O\n")],
        (9, S18),
    ),
    ("mixed_without_read", Base::Mosi, &[(42, "")], (8, S18)),
    ("mixed_without_write", Base::Mosi, &[(43, "")], (8, S18)),
    (
        "mixed_without_write_of_a_sharer",
        Base::Mosi,
        &[(44, "")],
        (8, S18),
    ),
    (
        "mixed_without_write_of_the_owner",
        Base::Moesi,
        &[(53, "")],
        (9, S18),
    ),
    (
        "mixed_without_last_owner",
        Base::Mosi,
        &[(46, "")],
        (8, S18),
    ),
    (
        "mixed_without_owner_of_more",
        Base::Mosi,
        &[(47, "")],
        (8, S18),
    ),
    (
        "mixed_without_last_sharer",
        Base::Moesi,
        &[(56, "")],
        (9, S18),
    ),
    (
        "mixed_without_sharer_of_more",
        Base::Mosi,
        &[(49, "")],
        (8, S18),
    ),
    (
        "read_row_missing_and_load_hits",
        Base::Msi,
        &[(16, "core I load hit\n"), (27, "")],
        (5, S18),
    ),
];

// Clean finals of loads.
pub const CASES_18: &[Case] = &[
    (
        "share_gives_a_clean_final",
        Base::Mesi,
        &[(33, "take M FwdGetS DataE S\n")],
        (19, S19),
    ),
    (
        "keep_gives_a_clean_final",
        Base::Moesi,
        &[(41, "take M FwdGetS DataE O\n")],
        (22, S19),
    ),
    (
        "inv_gives_a_clean_final",
        Base::Mesi,
        &[(30, "take S Inv DataE I\n")],
        (19, S19),
    ),
    (
        "take_not_due_gives_a_clean_final",
        Base::Mesi,
        &[(30, "take S Inv I\ntake S FwdGetS DataE S\n")],
        (19, S19),
    ),
    (
        "load_final_a_clean_read_owner",
        Base::Mosi,
        &[
            (4, "cache O owner read clean\n"),
            (19, "core I load GetS Data O\n"),
        ],
        (19, S19),
    ),
    (
        "clean_final_and_a_reply_missing",
        Base::Mesi,
        &[
            (19, "core I load GetS DataE E\n"),
            (33, "take M FwdGetS DataE S\n"),
        ],
        (19, S7),
    ),
];

/// Edits that have no fault.
pub const SOUND: &[(&'static str, Base, &'static [(usize, &'static str)])] = &[
    (
        "load_replies_in_another_order",
        Base::Mesi,
        &[(19, "core I load GetS DataE E Data S\n")],
    ),
    (
        "store_hit_to_itself",
        Base::Msi,
        &[(22, "core M store hit M\n")],
    ),
    (
        "clean_owner_evicts_dirty",
        Base::Mesi,
        &[(26, "core E evict PutM\n")],
    ),
    (
        "messages_that_are_not_used",
        Base::Msi,
        &[
            (11, "request PutM dirty\nrequest PutX dirty\n"),
            (14, "forward FwdGetM drop\nforward FwdKeep keep\n"),
            (15, "reply Data data\nreply DataX data\n"),
        ],
    ),
    (
        "evict_of_another_name",
        Base::Msi,
        &[(10, "request Leave clean\n"), (20, "core S evict Leave\n")],
    ),
    (
        "exclusive_that_is_not_clean",
        Base::Mesi,
        &[(4, "cache E owner write\n"), (26, "core E evict PutM\n")],
    ),
    (
        "read_that_moves_the_owner",
        Base::Msi,
        &[
            (15, "reply Data data\nreply DataM data\n"),
            (16, "core I load GetS Data S DataM M\n"),
            (17, "core I store GetM Data M DataM M\n"),
            (25, ""),
            (26, "take M FwdGetM DataM I\n"),
            (34, "row M GetS other FwdGetM M\n"),
        ],
    ),
    (
        "mixed_that_shares",
        Base::Mosi,
        &[
            (16, "forward FwdGetS keep\nforward FwdRead share\n"),
            (31, "take O FwdRead Data S\n"),
            (42, "row O GetS other FwdRead S\n"),
        ],
    ),
    (
        "read_owner_that_is_left_alone",
        Base::Mosi,
        &[
            (9, "dir M owned M\ndir N owned O\n"),
            (48, "row O evict sharer last N\n"),
            (
                52,
                "row M evict owner last I
row N GetS other FwdGetS O
row N GetM other FwdGetM M
row N GetM owner count M
row N evict owner last I
",
            ),
        ],
    ),
    (
        "owned_of_a_writer_and_a_read_owner",
        Base::Mosi,
        &[
            (9, "dir M owned M O\n"),
            (51, "row M GetM other FwdGetM M\nrow M GetM owner count M\n"),
        ],
    ),
    (
        "two_read_owners",
        Base::Mosi,
        &[
            (4, "cache O owner read\ncache P owner read\n"),
            (8, "dir O mixed O P\n"),
            (
                26,
                "core O evict PutO
core P load hit
core P store GetM AckCount M
core P evict PutO
",
            ),
            (
                32,
                "take O FwdGetM Data I\ntake P FwdGetS Data P\ntake P FwdGetM Data I\n",
            ),
        ],
    ),
    (
        "clean_read_owner",
        Base::Moesi,
        &[
            (4, "cache O owner read\ncache F owner read clean\n"),
            (9, "dir O mixed O F\n"),
            (
                29,
                "core O evict PutO
core F load hit
core F store GetM AckCount M
core F evict PutE
",
            ),
            (
                38,
                "take O FwdGetM Data I\ntake F FwdGetS Data F\ntake F FwdGetM Data I\n",
            ),
            (39, "take E FwdGetS Data F\n"),
        ],
    ),
    (
        "twelve_owners",
        Base::Mi,
        &[
            (
                3,
                "cache M owner write
cache A owner write
cache B owner write
cache C owner write
cache D owner write
cache E owner write
cache F owner write
cache G owner write
cache H owner write
cache J owner write
cache K owner write
cache L owner write
",
            ),
            (5, "dir M owned M A B C D E F G H J K L\n"),
            (
                15,
                "core M evict PutM
core A load hit
core A store hit
core A evict PutM
core B load hit
core B store hit
core B evict PutM
core C load hit
core C store hit
core C evict PutM
core D load hit
core D store hit
core D evict PutM
core E load hit
core E store hit
core E evict PutM
core F load hit
core F store hit
core F evict PutM
core G load hit
core G store hit
core G evict PutM
core H load hit
core H store hit
core H evict PutM
core J load hit
core J store hit
core J evict PutM
core K load hit
core K store hit
core K evict PutM
core L load hit
core L store hit
core L evict PutM
",
            ),
            (
                16,
                "take M FwdGet Data I
take A FwdGet Data I
take B FwdGet Data I
take C FwdGet Data I
take D FwdGet Data I
take E FwdGet Data I
take F FwdGet Data I
take G FwdGet Data I
take H FwdGet Data I
take J FwdGet Data I
take K FwdGet Data I
take L FwdGet Data I
",
            ),
        ],
    ),
];
