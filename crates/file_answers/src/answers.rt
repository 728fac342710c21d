//! Answers: a status, and lines or bytes.

ghost use Rattle.std.specs.Prelude.{◌≡◌, [], ◌∷◌, List, ℕ, IfOk, OnOk, map, string_bytes, slice_index_or};
ghost use Rattle.std.specs.Fmt.{decimal};
ghost use Rattle.program_answers.specs.Written.{line};
ghost use Rattle.file_answers.specs.Answers as answers;

use program_accept::{Refusal, Stage};
use program_answers::{Answer, Output, Status};
use rows::{Bytes, Rows};
use std::alloc::{AllocError, Global};

fn one_piece(alloc: Global, piece: Bytes) -> Result<Rows<Bytes>, AllocError>
    ensures { IfOk result (λ pieces. pieces ≡ piece ∷ []) }
{
    let mut pieces = Vec::new(alloc);
    pieces.push(piece)?;
    Ok(Rows::from_vec(pieces))
}

/// Bytes on the standard output.
pub fn given(alloc: Global, bytes: Bytes) -> Result<Answer, AllocError>
    ensures { IfOk result (λ answer. answer ≡ answers.given bytes) }
{
    Ok(Answer {
        status: Status::Done,
        out: Output::from_pieces(one_piece(alloc, bytes)?),
        err: Rows::new(alloc),
    })
}

fn line_of(mut text: Vec<u8>) -> Result<Bytes, AllocError>
    ensures { IfOk result (λ bytes. bytes ≡ line text.items) }
{
    text.push(b'\n')?;
    Ok(Bytes::from_vec(text))
}

// A line on the standard error.
fn told(alloc: Global, status: Status, text: Vec<u8>) -> Result<Answer, AllocError>
    ensures { IfOk result (λ answer. answer ≡ answers.told status text.items) }
{
    let line = line_of(text)?;
    Ok(Answer {
        status,
        out: Output::from_pieces(Rows::new(alloc)),
        err: one_piece(alloc, line)?,
    })
}

/// Words that ask for no command.
pub fn usage(alloc: Global) -> Result<Answer, AllocError>
    ensures { IfOk result (λ answer. answer ≡ answers.usage) }
{
    told(alloc, Status::Usage, Vec::from_slice(alloc, b"usage")?)
}

pub(crate) fn no_main(alloc: Global) -> Result<Answer, AllocError>
    ensures { IfOk result (λ answer. answer ≡ answers.no_main) }
{
    told(alloc, Status::NoMain, Vec::from_slice(alloc, b"no main")?)
}

fn push_word(text: &mut Vec<u8>, word: &[u8]) -> Result<(), AllocError>
    ensures { OnOk result (text.new.items ≡ answers.with_word text.old.items word.now) }
{
    text.push(b' ')?;
    text.extend_from_slice(word)?;
    Ok(())
}

fn push_number(text: &mut Vec<u8>, alloc: Global, number: u32) -> Result<(), AllocError>
    ensures { OnOk result (text.new.items ≡ answers.with_word text.old.items (decimal number)) }
{
    let digits = number.to_string(alloc)?;
    push_word(text, digits.as_bytes())
}

fn refusal_words(
    alloc: Global,
    stage: &[u8],
    file: &[u8],
    number: u32,
    method: u32,
    place: u32,
) -> Result<Vec<u8>, AllocError>
    ensures { IfOk result (λ text. text.items ≡ answers.refusal_words stage.now file.now number method place) }
{
    let mut text = Vec::from_slice(alloc, b"refused:")?;
    push_word(&mut text, stage)?;
    push_word(&mut text, file)?;
    push_number(&mut text, alloc, number)?;
    push_number(&mut text, alloc, method)?;
    push_number(&mut text, alloc, place)?;
    Ok(text)
}

fn stage_word(stage: Stage) -> &'static [u8]
    ensures { result.now ≡ answers.stage_word stage }
{
    match stage {
        Stage::Read => b"read",
        Stage::Code => b"code",
        Stage::Link => b"link",
        Stage::Verify => b"verify",
    }
}

fn name_at(names: &[String], place: u32) -> &[u8]
    ensures { result.now ≡ slice_index_or (map string_bytes names.now) place [] }
{
    match names.get(place as usize) {
        Some(name) => name.as_bytes(),
        None => &[],
    }
}

/// The first rule that the files of these names break.
pub(crate) fn refused(
    alloc: Global,
    names: &[String],
    refusal: Refusal,
) -> Result<Answer, AllocError>
    ensures { IfOk result (λ answer. answer ≡ answers.refused (map string_bytes names.now) refusal) }
{
    let text = refusal_words(
        alloc,
        stage_word(refusal.stage),
        name_at(names, refusal.class),
        u32::from(refusal.number),
        u32::from(refusal.method),
        refusal.place,
    )?;
    told(alloc, Status::Refused, text)
}

/// `count` classes were read.
pub(crate) fn accepted(alloc: Global, count: usize) -> Result<Answer, AllocError>
    ensures { IfOk result (λ answer. answer ≡ answers.accepted count) }
{
    let digits = count.to_string(alloc)?;
    let mut text = Vec::from_slice(alloc, b"accepted ")?;
    text.extend_from_slice(digits.as_bytes())?;
    given(alloc, line_of(text)?)
}

/// The text is refused at a line.
pub(crate) fn not_made(alloc: Global, number: u32) -> Result<Answer, AllocError>
    ensures { IfOk result (λ answer. answer ≡ answers.not_made number) }
{
    let digits = number.to_string(alloc)?;
    let mut text = Vec::from_slice(alloc, b"make: line ")?;
    text.extend_from_slice(digits.as_bytes())?;
    told(alloc, Status::MakeRefused(number), text)
}

/// The line of this number shows that a text is the journal of no execution.
pub fn not_execution(alloc: Global, number: u32) -> Result<Answer, AllocError>
    ensures { IfOk result (λ answer. answer ≡ answers.not_execution number) }
{
    let digits = number.to_string(alloc)?;
    let mut text = Vec::from_slice(alloc, b"not an execution: line ")?;
    text.extend_from_slice(digits.as_bytes())?;
    told(alloc, Status::NotExecution(number), text)
}
