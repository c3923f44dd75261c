// The words that a line may begin with.
ghost use Rattle.std.specs.Prelude.{◌≡◌};
ghost use Rattle.text.specs.Lines.{word_of};

// The number of the word: that of its section, 5 for the price, 0 for any other. The definitions and the refusals of rows count
// sections so.
#[tactic(auto, unfolding(crate::specs::Lines::word_of))]
pub(crate) fn word_of(field: &[u8]) -> u32
    ensures { result ≡ word_of field.now }
{
    let is = |word: &[u8]| field == word;
    if is(b"agent") {
        1
    } else if is(b"boundary") {
        2
    } else if is(b"plant") {
        3
    } else if is(b"contract") {
        4
    } else if is(b"price") {
        5
    } else {
        0
    }
}
