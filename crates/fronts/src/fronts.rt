// Tables that stand at the front of lent words.
// What lies behind a table is nobody's business, so that nothing is said of it.
ghost use Rattle.std.specs.Prelude.{◌≡◌, ◌≤◌, length, take, replicate};

pub fn clear_front(words: &mut [u32], count: usize)
    requires { count ≤ length words.old }
    ensures { take count words.new ≡ replicate count 0 }
{
    words[0..count].fill(0);
}
