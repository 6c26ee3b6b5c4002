// A reader of numbers: it holds a text and its place there.
// It goes over the text once, and what is left of the text is a text of its own.
ghost use Rattle.std.specs.Prelude.{◌≤◌, length};

mod turns;

#[derive(Drop)]
pub struct Reader<'a> {
    text: &'a [u8],
    at: usize,
    ghost within: { at ≤ length text.now },
}
