// A line as words with single spaces between them.
ghost use Rattle.std.specs.Prelude.{◌≡◌};
ghost use Rattle.std.specs.Option.{option_map};
ghost use Rattle.text.specs.Words.{words, nth};

// The word at this index, counted from 0.
pub fn word_at(line: &str, index: usize) -> Option<&str>
    ensures { option_map (λ x. x.now) result ≡ nth (words line.now) index }
{
    line.split(' ').nth(index)
}
