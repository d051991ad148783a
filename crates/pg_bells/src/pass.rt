use crate::bell::Bell;
use crate::view::View;
use crossbeam_queue::Pass;

/// The right to ring for one core. Its serials go on from one bell to the next.
#[derive(Drop)]
pub struct RingPass {
    pub(crate) core: u32,
    pub(crate) count: u32,
    pub(crate) pass: Pass<Bell, View>,
}

/// The right to answer bells.
#[derive(Drop)]
pub struct AnswerPass {
    pub(crate) pass: Pass<Bell, View>,
}
