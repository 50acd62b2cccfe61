// The store's memory and sizes. The kernel asks for no memory of its own, so the tables lie one behind another in words that are lent.
ghost use Rattle.std.specs.Prelude.{◌≤◌, length};
ghost use Rattle.copying.specs.Memory.{need};

// The table in the first 16 * n words, and the saved ones behind it, the oldest first. Not compared: words behind the newest are no part of it.
#[derive(Drop)]
pub struct Copying<'a> {
    pub(crate) words: &'a mut [u64],
    pub(crate) n: usize,
    pub(crate) most: usize,
    pub(crate) depth: usize,
    ghost room: { need n most ≤ length words.now },
    ghost few: { n ≤ 256 },
    ghost some: { 1 ≤ most },
    ghost low: { most ≤ 16 },
    ghost within: { depth ≤ most },
}
