// Loops over words, each on a part of a vector.
ghost use Rattle.std.specs.Prelude.{◌≡◌, ◌+◌, ◌<◌, ◌≤◌, length, bit_or, get_or};
ghost use Rattle.spx_rows.specs.Bits.{Changed, width};

/// How many words a row of `size` bits takes.
pub fn width_of(size: usize) -> usize
    requires { size ≤ 65536 }
    ensures { result ≡ width size }
{
    (size + 63) / 64
}

/// Puts 0 into `count` words from `to` on.
pub fn clear_words(words: &mut Vec<u64>, to: usize, count: usize)
    requires { to + count ≤ length words.old.items }
    ensures { Changed words.old.items words.new.items to count (λ j old. 0) }
{
    for j in 0..count {
        words[to + j] = 0;
    }
}

/// Adds the bits of `count` words from `from` on to those from `to` on.
pub fn add_words(words: &mut Vec<u64>, to: usize, from: usize, count: usize)
    requires to { to + count ≤ length words.old.items }
    requires from { from + count ≤ length words.old.items }
    requires apart { from < to → from + count ≤ to }
    ensures { Changed words.old.items words.new.items to count (λ j old. bit_or old (get_or words.old.items (from + j) 0)) }
{
    for j in 0..count {
        words[to + j] = words[to + j] | words[from + j];
    }
}

/// Adds the bits of `count` words of another vector.
pub fn add_words_of(words: &mut Vec<u64>, to: usize, other: &Vec<u64>, from: usize, count: usize)
    requires to { to + count ≤ length words.old.items }
    requires from { from + count ≤ length other.now.items }
    ensures { Changed words.old.items words.new.items to count (λ j old. bit_or old (get_or other.now.items (from + j) 0)) }
{
    for j in 0..count {
        words[to + j] = words[to + j] | other[from + j];
    }
}
