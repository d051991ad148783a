//! Scripts on protocols, and their histories on the atomic machine, worked by hand.

use super::texts::Base;

/// What a case meets, the protocol, the script, and the histories of its blocks.
pub type History = (&'static str, Base, &'static str, &'static str);

pub const HISTORIES_1: &[History] = &[
    (
        "loads that hit; a store from out with two sharers invalidated; largest word; read by share, the old owner hits as a sharer; evict of an invalidated (out) core, no step; sharer more and sharer last at shared; owner last; the word is kept over evicts; block 1 untouched",
        Base::Msi,
        "cores 3\nblocks 2\nop 0 load 0\nop 1 load 0\nop 0 load 0\nop 2 store 0 4294967295\nop 0 load 0\nop 2 load 0\nop 1 evict 0\nop 0 evict 0\nop 2 evict 0\nop 1 store 0 3\nop 1 evict 0\nop 1 load 0\ndone\n",
        "block 0\ntxn 1 c0 load\nacc 1 c0 load 0\ntxn 2 c1 load\nacc 2 c1 load 0\nacc 2 c0 load 0\ntxn 3 c2 store\nacc 3 c2 store 4294967295\ntxn 4 c0 load\nacc 4 c0 load 4294967295\nacc 4 c2 load 4294967295\ntxn 5 c0 evict\ntxn 6 c2 evict\ntxn 7 c1 store\nacc 7 c1 store 3\ntxn 8 c1 evict\ntxn 9 c1 load\nacc 9 c1 load 3\nblock 1\nend\n",
    ),
    (
        "two blocks with operations interleaved, numbers per block; a store from shared alone and with another sharer; a store by drop; evicts of out cores; sharer more, sharer last",
        Base::Msi,
        "cores 2\nblocks 2\nop 1 load 1\nop 1 store 1 5\nop 0 store 0 1\nop 0 load 1\nop 0 store 1 6\nop 1 evict 1\nop 1 store 1 8\nop 0 evict 1\nop 1 load 1\nop 1 store 0 2\nop 0 load 0\nop 1 evict 0\nop 0 evict 0\nop 0 evict 0\ndone\n",
        "block 0\ntxn 1 c0 store\nacc 1 c0 store 1\ntxn 2 c1 store\nacc 2 c1 store 2\ntxn 3 c0 load\nacc 3 c0 load 2\ntxn 4 c1 evict\ntxn 5 c0 evict\nblock 1\ntxn 1 c1 load\nacc 1 c1 load 0\ntxn 2 c1 store\nacc 2 c1 store 5\ntxn 3 c0 load\nacc 3 c0 load 5\ntxn 4 c0 store\nacc 4 c0 store 6\ntxn 5 c1 store\nacc 5 c1 store 8\nacc 5 c1 load 8\nend\n",
    ),
    (
        "a load that ends as clean owner E; a store hit that moves E to M without a txn; share from M; a store from shared with two others invalidated; a dirty and a clean owner evict last; a store by drop from E; value 0 stored",
        Base::Mesi,
        "cores 3\nblocks 1\nop 0 load 0\nop 0 load 0\nop 0 store 0 9\nop 0 store 0 10\nop 1 load 0\nop 2 load 0\nop 1 store 0 4294967295\nop 0 evict 0\nop 1 evict 0\nop 2 load 0\nop 2 evict 0\nop 1 load 0\nop 0 store 0 0\nop 1 load 0\ndone\n",
        "block 0\ntxn 1 c0 load\nacc 1 c0 load 0\nacc 1 c0 load 0\nacc 1 c0 store 9\nacc 1 c0 store 10\ntxn 2 c1 load\nacc 2 c1 load 10\ntxn 3 c2 load\nacc 3 c2 load 10\ntxn 4 c1 store\nacc 4 c1 store 4294967295\ntxn 5 c1 evict\ntxn 6 c2 load\nacc 6 c2 load 4294967295\ntxn 7 c2 evict\ntxn 8 c1 load\nacc 8 c1 load 4294967295\ntxn 9 c0 store\nacc 9 c0 store 0\ntxn 10 c1 load\nacc 10 c1 load 0\nend\n",
    ),
];

pub const HISTORIES_2: &[History] = &[
    (
        "share from E; a READ at shared that gives S and not E; sharer more and last, then E again with the dirty word",
        Base::Mesi,
        "cores 2\nblocks 2\nop 0 load 1\nop 1 load 1\nop 0 evict 1\nop 0 load 1\nop 0 store 1 21\nop 1 store 0 33\nop 1 evict 1\nop 1 load 1\nop 1 evict 1\nop 0 evict 1\nop 1 load 1\nop 0 load 0\ndone\n",
        "block 0\ntxn 1 c1 store\nacc 1 c1 store 33\ntxn 2 c0 load\nacc 2 c0 load 33\nblock 1\ntxn 1 c0 load\nacc 1 c0 load 0\ntxn 2 c1 load\nacc 2 c1 load 0\ntxn 3 c0 evict\ntxn 4 c0 load\nacc 4 c0 load 0\ntxn 5 c0 store\nacc 5 c0 store 21\ntxn 6 c1 load\nacc 6 c1 load 21\ntxn 7 c1 evict\ntxn 8 c0 evict\ntxn 9 c1 load\nacc 9 c1 load 21\nend\n",
    ),
    (
        "read by keep from M and at mixed; a store of a read owner with two sharers (AckCount, invalidated) and with none; sharer last and more at mixed; owner more at mixed (to shared), the sharer still hits; sharer last at shared",
        Base::Mosi,
        "cores 3\nblocks 1\nop 0 store 0 1\nop 1 load 0\nop 2 load 0\nop 0 store 0 2\nop 0 load 0\nop 2 load 0\nop 2 evict 0\nop 0 store 0 4294967295\nop 1 load 0\nop 2 load 0\nop 1 evict 0\nop 0 evict 0\nop 2 load 0\nop 2 evict 0\ndone\n",
        "block 0\ntxn 1 c0 store\nacc 1 c0 store 1\ntxn 2 c1 load\nacc 2 c1 load 1\ntxn 3 c2 load\nacc 3 c2 load 1\ntxn 4 c0 store\nacc 4 c0 store 2\nacc 4 c0 load 2\ntxn 5 c2 load\nacc 5 c2 load 2\ntxn 6 c2 evict\ntxn 7 c0 store\nacc 7 c0 store 4294967295\ntxn 8 c1 load\nacc 8 c1 load 4294967295\ntxn 9 c2 load\nacc 9 c2 load 4294967295\ntxn 10 c1 evict\ntxn 11 c0 evict\nacc 11 c2 load 4294967295\ntxn 12 c2 evict\nend\n",
    ),
    (
        "block 0 untouched; at mixed a store of a sharer (owner dropped, other sharer invalidated) and of an out core (owner dropped, sharer invalidated); evict of a dropped owner, no step; sharer last at mixed, then the read owner hits and leaves as owner last at mixed",
        Base::Mosi,
        "cores 3\nblocks 2\nop 2 load 1\nop 0 store 1 11\nop 1 load 1\nop 2 load 1\nop 1 store 1 12\nop 0 evict 1\nop 0 load 1\nop 2 store 1 13\nop 1 load 1\nop 1 evict 1\nop 2 load 1\nop 2 evict 1\nop 0 load 1\nop 0 store 1 14\ndone\n",
        "block 0\nblock 1\ntxn 1 c2 load\nacc 1 c2 load 0\ntxn 2 c0 store\nacc 2 c0 store 11\ntxn 3 c1 load\nacc 3 c1 load 11\ntxn 4 c2 load\nacc 4 c2 load 11\ntxn 5 c1 store\nacc 5 c1 store 12\ntxn 6 c0 load\nacc 6 c0 load 12\ntxn 7 c2 store\nacc 7 c2 store 13\ntxn 8 c1 load\nacc 8 c1 load 13\ntxn 9 c1 evict\nacc 9 c2 load 13\ntxn 10 c2 evict\ntxn 11 c0 load\nacc 11 c0 load 13\ntxn 12 c0 store\nacc 12 c0 store 14\nend\n",
    ),
];

pub const HISTORIES_3: &[History] = &[
    (
        "keep from the clean owner E (to O); a store of that read owner with a sharer; owner more at mixed; sharer more and last at shared; E again, the store hit to M, dirty owner last; block 1 untouched",
        Base::Moesi,
        "cores 3\nblocks 2\nop 0 load 0\nop 1 load 0\nop 0 store 0 5\nop 0 store 0 6\nop 2 load 0\nop 0 evict 0\nop 0 load 0\nop 2 evict 0\nop 0 evict 0\nop 2 load 0\nop 2 store 0 4294967295\nop 2 evict 0\nop 1 evict 0\nop 1 load 0\ndone\n",
        "block 0\ntxn 1 c0 load\nacc 1 c0 load 0\ntxn 2 c1 load\nacc 2 c1 load 0\ntxn 3 c0 store\nacc 3 c0 store 5\nacc 3 c0 store 6\ntxn 4 c2 load\nacc 4 c2 load 6\ntxn 5 c0 evict\ntxn 6 c0 load\nacc 6 c0 load 6\ntxn 7 c2 evict\ntxn 8 c0 evict\ntxn 9 c2 load\nacc 9 c2 load 6\nacc 9 c2 store 4294967295\ntxn 10 c2 evict\ntxn 11 c1 load\nacc 11 c1 load 4294967295\nblock 1\nend\n",
    ),
    (
        "a store by drop from E; E moved to M by a hit and then kept as O; sharer last and owner last at mixed; a sharer's store at mixed; two blocks interleaved",
        Base::Moesi,
        "cores 2\nblocks 2\nop 1 load 0\nop 0 store 0 70\nop 1 load 1\nop 1 store 1 80\nop 0 load 1\nop 0 evict 1\nop 1 evict 1\nop 1 load 0\nop 1 store 0 71\nop 0 evict 0\nop 0 store 1 81\nop 0 load 1\nop 1 store 1 82\nop 1 load 0\ndone\n",
        "block 0\ntxn 1 c1 load\nacc 1 c1 load 0\ntxn 2 c0 store\nacc 2 c0 store 70\ntxn 3 c1 load\nacc 3 c1 load 70\ntxn 4 c1 store\nacc 4 c1 store 71\nacc 4 c1 load 71\nblock 1\ntxn 1 c1 load\nacc 1 c1 load 0\nacc 1 c1 store 80\ntxn 2 c0 load\nacc 2 c0 load 80\ntxn 3 c0 evict\ntxn 4 c1 evict\ntxn 5 c0 store\nacc 5 c0 store 81\nacc 5 c0 load 81\ntxn 6 c1 store\nacc 6 c1 store 82\nend\n",
    ),
    (
        "a load that ends as writer, a store that hits after it; read by drop; store by drop; owner last and again (no step); block 0 untouched",
        Base::Mi,
        "cores 2\nblocks 2\nop 0 load 1\nop 0 store 1 4294967295\nop 1 load 1\nop 0 evict 1\nop 1 store 1 2\nop 0 store 1 3\nop 0 evict 1\nop 0 evict 1\nop 1 load 1\nop 1 load 1\ndone\n",
        "block 0\nblock 1\ntxn 1 c0 load\nacc 1 c0 load 0\nacc 1 c0 store 4294967295\ntxn 2 c1 load\nacc 2 c1 load 4294967295\nacc 2 c1 store 2\ntxn 3 c0 store\nacc 3 c0 store 3\ntxn 4 c0 evict\ntxn 5 c1 load\nacc 5 c1 load 3\nacc 5 c1 load 3\nend\n",
    ),
];

pub const HISTORIES_4: &[History] = &[
    (
        "an evict as the very first operation, no step; the line travels over three cores by drop",
        Base::Mi,
        "cores 3\nblocks 1\nop 2 evict 0\nop 1 store 0 1\nop 2 load 0\nop 0 load 0\nop 0 store 0 0\nop 1 load 0\nop 1 evict 0\nop 2 store 0 4294967294\nop 2 load 0\ndone\n",
        "block 0\ntxn 1 c1 store\nacc 1 c1 store 1\ntxn 2 c2 load\nacc 2 c2 load 1\ntxn 3 c0 load\nacc 3 c0 load 1\nacc 3 c0 store 0\ntxn 4 c1 load\nacc 4 c1 load 0\ntxn 5 c1 evict\ntxn 6 c2 store\nacc 6 c2 store 4294967294\nacc 6 c2 load 4294967294\nend\n",
    ),
    (
        "a READ passed on by drop, the reader becomes read owner P; its store by AckCount at an owned state; keep from P to O; a store of O at mixed with a sharer; sharer last from mixed to an owned state, keep there from O; a READ of mixed by share (owner and reader become sharers); sharer more at shared",
        Base::Migratory,
        "cores 3\nblocks 1\nop 0 store 0 5\nop 1 load 0\nop 0 evict 0\nop 1 store 0 6\nop 2 load 0\nop 0 load 0\nop 2 store 0 4294967295\nop 0 load 0\nop 1 load 0\nop 1 evict 0\nop 2 load 0\nop 1 load 0\nop 0 evict 0\nop 0 load 0\ndone\n",
        "block 0\ntxn 1 c0 store\nacc 1 c0 store 5\ntxn 2 c1 load\nacc 2 c1 load 5\ntxn 3 c1 store\nacc 3 c1 store 6\ntxn 4 c2 load\nacc 4 c2 load 6\ntxn 5 c0 load\nacc 5 c0 load 6\ntxn 6 c2 store\nacc 6 c2 store 4294967295\ntxn 7 c0 load\nacc 7 c0 load 4294967295\ntxn 8 c1 load\nacc 8 c1 load 4294967295\ntxn 9 c1 evict\ntxn 10 c2 load\nacc 10 c2 load 4294967295\ntxn 11 c1 load\nacc 11 c1 load 4294967295\ntxn 12 c0 evict\ntxn 13 c0 load\nacc 13 c0 load 4294967295\nend\n",
    ),
    (
        "block 0 untouched; a sharer's store at mixed under the drop reply; a store of an out core at an owned state with a read owner; read owner P leaves as owner last; O leaves as owner more; sharer last at shared",
        Base::Migratory,
        "cores 3\nblocks 2\nop 2 load 1\nop 2 store 1 3\nop 0 load 1\nop 1 load 1\nop 1 store 1 4\nop 0 load 1\nop 2 store 1 8\nop 0 load 1\nop 0 evict 1\nop 1 store 1 9\nop 2 load 1\nop 1 load 1\nop 2 evict 1\nop 1 evict 1\ndone\n",
        "block 0\nblock 1\ntxn 1 c2 load\nacc 1 c2 load 0\ntxn 2 c2 store\nacc 2 c2 store 3\ntxn 3 c0 load\nacc 3 c0 load 3\ntxn 4 c1 load\nacc 4 c1 load 3\ntxn 5 c1 store\nacc 5 c1 store 4\ntxn 6 c0 load\nacc 6 c0 load 4\ntxn 7 c2 store\nacc 7 c2 store 8\ntxn 8 c0 load\nacc 8 c0 load 8\ntxn 9 c0 evict\ntxn 10 c1 store\nacc 10 c1 store 9\ntxn 11 c2 load\nacc 11 c2 load 9\ntxn 12 c1 load\nacc 12 c1 load 9\ntxn 13 c2 evict\ntxn 14 c1 evict\nend\n",
    ),
];

pub const HISTORIES_5: &[History] = &[
    (
        "a store of an out core at mixed (owner dropped and sharer invalidated); a store by drop from M; writer leaves; a store from out at shared",
        Base::Migratory,
        "cores 3\nblocks 1\nop 0 store 0 1\nop 1 load 0\nop 2 load 0\nop 0 store 0 2\nop 1 store 0 3\nop 1 evict 0\nop 2 load 0\nop 0 store 0 7\nop 0 load 0\nop 2 evict 0\ndone\n",
        "block 0\ntxn 1 c0 store\nacc 1 c0 store 1\ntxn 2 c1 load\nacc 2 c1 load 1\ntxn 3 c2 load\nacc 3 c2 load 1\ntxn 4 c0 store\nacc 4 c0 store 2\ntxn 5 c1 store\nacc 5 c1 store 3\ntxn 6 c1 evict\ntxn 7 c2 load\nacc 7 c2 load 3\ntxn 8 c0 store\nacc 8 c0 store 7\nacc 8 c0 load 7\nend\n",
    ),
    (
        "a store by drop from M; a store from out at shared with two sharers invalidated",
        Base::Mesi,
        "cores 3\nblocks 1\nop 0 store 0 1\nop 1 store 0 2\nop 0 load 0\nop 2 store 0 3\nop 1 evict 0\nop 2 evict 0\nop 1 load 0\nop 1 evict 0\nop 1 store 0 4\ndone\n",
        "block 0\ntxn 1 c0 store\nacc 1 c0 store 1\ntxn 2 c1 store\nacc 2 c1 store 2\ntxn 3 c0 load\nacc 3 c0 load 2\ntxn 4 c2 store\nacc 4 c2 store 3\ntxn 5 c2 evict\ntxn 6 c1 load\nacc 6 c1 load 3\ntxn 7 c1 evict\ntxn 8 c1 store\nacc 8 c1 store 4\nend\n",
    ),
    (
        "READ at shared; sharer more at shared; a store by drop from M; owner last of M",
        Base::Mosi,
        "cores 3\nblocks 1\nop 0 load 0\nop 1 load 0\nop 0 evict 0\nop 1 evict 0\nop 2 store 0 8\nop 0 store 0 9\nop 0 evict 0\nop 2 load 0\nop 2 load 0\ndone\n",
        "block 0\ntxn 1 c0 load\nacc 1 c0 load 0\ntxn 2 c1 load\nacc 2 c1 load 0\ntxn 3 c0 evict\ntxn 4 c1 evict\ntxn 5 c2 store\nacc 5 c2 store 8\ntxn 6 c0 store\nacc 6 c0 store 9\ntxn 7 c0 evict\ntxn 8 c2 load\nacc 8 c2 load 9\nacc 8 c2 load 9\nend\n",
    ),
];

pub const HISTORIES_6: &[History] = &[
    (
        "READ at mixed; sharer more at mixed; a store from out at mixed (owner dropped, sharer invalidated) and at shared; a store from shared with another sharer",
        Base::Moesi,
        "cores 3\nblocks 1\nop 0 store 0 1\nop 1 load 0\nop 2 load 0\nop 1 evict 0\nop 1 store 0 2\nop 0 load 0\nop 1 evict 0\nop 2 store 0 3\nop 0 load 0\nop 2 evict 0\nop 1 load 0\nop 0 store 0 4\ndone\n",
        "block 0\ntxn 1 c0 store\nacc 1 c0 store 1\ntxn 2 c1 load\nacc 2 c1 load 1\ntxn 3 c2 load\nacc 3 c2 load 1\ntxn 4 c1 evict\ntxn 5 c1 store\nacc 5 c1 store 2\ntxn 6 c0 load\nacc 6 c0 load 2\ntxn 7 c1 evict\ntxn 8 c2 store\nacc 8 c2 store 3\ntxn 9 c0 load\nacc 9 c0 load 3\ntxn 10 c2 evict\ntxn 11 c1 load\nacc 11 c1 load 3\ntxn 12 c0 store\nacc 12 c0 store 4\nend\n",
    ),
    (
        "the store-hit move seen in the history: passed on from E the reader is a writer (its store hits), passed on from E moved to M it is a read owner (its store is txn 8); in MESI and MOESI no history tells E from M",
        Base::Visible,
        "cores 2\nblocks 1\nop 0 load 0\nop 1 load 0\nop 1 store 0 4\nop 0 load 0\nop 0 store 0 5\nop 0 evict 0\nop 0 load 0\nop 0 store 0 6\nop 1 load 0\nop 1 store 0 7\nop 0 evict 0\nop 0 load 0\ndone\n",
        "block 0\ntxn 1 c0 load\nacc 1 c0 load 0\ntxn 2 c1 load\nacc 2 c1 load 0\nacc 2 c1 store 4\ntxn 3 c0 load\nacc 3 c0 load 4\ntxn 4 c0 store\nacc 4 c0 store 5\ntxn 5 c0 evict\ntxn 6 c0 load\nacc 6 c0 load 5\nacc 6 c0 store 6\ntxn 7 c1 load\nacc 7 c1 load 6\ntxn 8 c1 store\nacc 8 c1 store 7\ntxn 9 c0 load\nacc 9 c0 load 7\nend\n",
    ),
];
