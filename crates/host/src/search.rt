ghost use Rattle.std.specs.Prelude.{◌≡◌, Ok, Err, IfOk, IfErr};
ghost use Rattle.std.specs.Option.{option_copied};
ghost use Rattle.job.specs.Format.{step};
ghost use Rattle.host.specs.Outcomes.{text_in, text_for, outcome, FailsWith, Small};

use crate::miss::Miss;
use crate::searcher::{SearcherKind, permits};
use job::{Reader, Record, open};
use pattern::Book;
use rules::{Match, Refusal};
use std::alloc::Global;

/// The text at which a reader stands.
fn first_text<'a>(mut texts: Reader<'a>) -> Option<&'a [u8]>
    ensures { option_copied result ≡ text_in (step texts.entry.job.now texts.entry.at) }
{
    let placed = texts.next().ok()??;
    match placed.record {
        Record::Text(text) => Some(text),
        _ => None,
    }
}

/// The text to search, once the job's book is closed: up to the search itself no memory is wanted any more.
fn text_for<'a>(book: &Book, texts: Reader<'a>, searcher: SearcherKind) -> Result<&'a [u8], Miss>
    ensures ok { IfOk result (λ t. text_for book.now searcher (text_in (step texts.entry.job.now texts.entry.at)) ≡ Ok t.now) }
    ensures err { IfErr result (λ e. text_for book.now searcher (text_in (step texts.entry.job.now texts.entry.at)) ≡ Err e) }
{
    if !permits(book, searcher) {
        return Err(Miss::Refused(Refusal::BadMaskCount));
    }
    first_text(texts).ok_or(Miss::NoText)
}

/// Searches a job's first text from a place on; what comes after it is not looked at.
pub(crate) fn search(
    alloc: Global,
    job: &[u8],
    place: usize,
    searcher: SearcherKind,
) -> Result<Match, Miss>
    ensures ok { IfOk result (λ m. outcome job.now place searcher ≡ Ok m) }
    ensures small { IfOk result Small }
    ensures err { IfErr result (FailsWith job.now (outcome job.now place searcher)) }
{
    let opened = open(alloc, job)?;
    let text = text_for(&opened.book, opened.texts, searcher)?;
    searcher
        .find(alloc, opened.book, text, place)?
        .ok_or(Miss::NoHit)
}
