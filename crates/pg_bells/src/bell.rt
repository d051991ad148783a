/// A bell: the core that rang it, its place among the bells of that core, from 0, and the block for which it was rung.
#[derive(Debug, Clone, Copy, PartialEq, Eq)]
pub struct Bell {
    pub core: u32,
    pub serial: u32,
    pub block: u32,
}

/// No more bells can wait.
#[derive(Debug, Clone, Copy, PartialEq, Eq)]
pub struct Full;
