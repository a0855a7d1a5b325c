// The byte strings that a script gives, and the listing of an image.
ghost use Rattle.std.specs.Prelude.{◌≡◌, IfOk, vec_items};
ghost use Rattle.std.specs.Result.{result_map_both};
ghost use Rattle.text.specs.Words.{words, nth};
ghost use Rattle.session.specs.Image.{ByteString, Lists, listed};

use crate::answer::Answer;
use crate::failure::Failure;
use listing::sweep::all_lines;
use listing::vectors::vector_text;
use part::image::check_image;
use part::layout::Vector;
use script::call::Problem;
use std::fs;
use text::hex::bytes_of;
use text::word::word_at;

// The bytes that a line's second word gives, or why it gives none: in hexadecimal, or in the file whose path follows an @.
pub fn bytes_in(rt: &HostRuntime, line: &str) -> anyhow::Result<Result<Vec<u8>, Failure>>
    ensures { IfOk result (λ r. ByteString (nth (words line.now) 1) (result_map_both vec_items (λ e. e) r)) }
{
    let Some(argument) = word_at(line, 1) else {
        return Ok(Err(Failure::Line(Problem::MissingArgument)));
    };
    if let Some(path) = argument.strip_prefix('@') {
        return Ok(fs::read(rt, path).map_err(|_| Failure::UnreadFile));
    }
    Ok(bytes_of(rt.alloc(), argument)?.ok_or(Failure::BadBytes))
}

// Prints the lines of an image, and says how many they were; or why the bytes are no image.
fn print_lines(rt: &HostRuntime, image: &[u8]) -> anyhow::Result<Result<Answer, Failure>>
    ensures { IfOk result (λ r. r ≡ listed image.now) }
{
    if let Err(refused) = check_image(image) {
        return Ok(Err(refused.into()));
    }
    let heap = rt.alloc();
    let lines = all_lines(heap, image)?;
    for line in lines.iter() {
        rt.println(line.text(heap)?)?;
    }
    for vector in Vector::ALL {
        rt.println(vector_text(heap, image, vector)?)?;
    }
    Ok(Ok(Answer::Listed(lines.len().saturating_add(Vector::ALL.len()))))
}

// Lists the image that a line gives.
pub fn list(rt: &HostRuntime, line: &str) -> anyhow::Result<Result<Answer, Failure>>
    ensures { IfOk result (λ r. Lists (nth (words line.now) 1) r) }
{
    match bytes_in(rt, line)? {
        Ok(bytes) => print_lines(rt, bytes.as_slice()),
        Err(failure) => Ok(Err(failure)),
    }
}
