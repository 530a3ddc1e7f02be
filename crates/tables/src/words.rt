// Total reads and writes of a block: a word past its end reads as 0, and a write there does nothing.
ghost use Rattle.std.specs.Prelude.{◌≡◌, ◌-◌, get_or, set};

pub fn word_at(block: &[u32], at: u64) -> u32
    ensures { result ≡ get_or block.now at 0 }
{
    block.get(at as usize).copied().unwrap_or(0)
}

pub fn put_at(block: &mut [u32], at: u64, word: u32)
    ensures { block.new ≡ set block.old at word }
{
    let i = at as usize;
    if i < block.len() {
        block[i] = word;
    }
}
