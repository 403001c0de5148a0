ghost use Rattle.std.specs.Prelude.{◌≡◌, ℕ, ◌<◌, ◌≤◌, min, [], length, Ok, Err, vec_len, IfOk, IfErr, slice_index};
ghost use Rattle.rules.specs.declared.fault.Refusal.TheVariants.{Memory};
ghost use Rattle.rules.specs.Limits.{max_patterns, max_masks, max_hits};
ghost use Rattle.rules.specs.Book.{count_of, shortest};
ghost use Rattle.rules.specs.Faults.{refused};
ghost use Rattle.teddy.specs.Slim.{mask_count};
ghost use Rattle.job.specs.Reading.{reading};
ghost use Rattle.job.specs.Texts.{texts};
ghost use Rattle.job.specs.Opening.{opened};
ghost use Rattle.account.specs.Accounts.{Sums, Accounts};

use crate::account::{Account, Line, Summary};
use crate::scans::{list_of_hits, scan_texts};
use finder::{Finder, Searcher};
use intake::Intake;
use job::{Reader, open};
use pattern::{Book, MAX_MASKS};
use rules::{Fault, Match, PatternID};
use std::alloc::Global;
use std::rc::Rc;
use teddy::Slim;
use vector::{ArrayHalf, Single};

/// Every pattern's tally, by rising id.
fn tallies<F: Finder>(alloc: Global, intake: &Intake<F>, count: usize) -> Result<Vec<u32>, Fault>
    requires all { count ≡ count_of intake.now.book }
    requires few { count ≤ max_patterns }
    ensures many { IfOk result (λ v. length v.items ≡ count) }
    ensures tallies { IfOk result (λ v. (i : ℕ) → i < count → slice_index v.items i ≡ slice_index intake.now.tallies i) }
    ensures err { IfErr result (λ f. f ≡ refused 0 Memory) }
{
    (0..count)
        .map(|i| intake.tally(PatternID::from(i as u16)))
        .try_collect(alloc)
}

/// Scans the texts with a searcher, and sums up. It is not inlined: so the intake takes up the stack only once the searcher is made.
#[inline(never)]
fn sum_up<F: Finder + Drop>(
    alloc: Global,
    finder: F,
    texts: Reader<'_>,
    mut hits: Vec<Match>,
    lines: &mut Vec<Line>,
) -> Result<Summary, Fault>
    requires room { vec_len hits ≡ max_hits }
    requires lines { lines.old.items ≡ [] }
    ensures { Sums (F.book finder) (reading texts.entry.job.now texts.entry.at) lines.new.items result }
{
    let count = finder.pattern_count();
    let mut intake = Intake::new(finder);
    scan_texts(&mut intake, texts, hits.as_mut_slice(), lines)?;
    // Its memory may serve the tallies.
    drop(hits);
    let tallies = tallies(alloc, &intake, count)?;
    Ok(Summary {
        texts: intake.count(),
        tallies,
    })
}

/// A job that is open: its book, to be shared with its searcher, its texts, and the list for the hits of each.
#[derive(Debug, Drop)]
struct OpenJob<'a> {
    book: Rc<Book>,
    texts: Reader<'a>,
    hits: Vec<Match>,
}

/// Opens a job, and asks for all that its texts want before the first of them.
fn open_job(alloc: Global, job: &[u8]) -> Result<OpenJob<'_>, Fault>
    ensures book { IfOk result (λ j. opened job.now ≡ Ok j.book.value) }
    ensures left { IfOk result (λ j. reading j.texts.job.now j.texts.at ≡ texts (reading job.now 0)) }
    ensures room { IfOk result (λ j. vec_len j.hits ≡ max_hits) }
    ensures err { IfErr result (λ f. Accounts job.now [] (Err f)) }
{
    let opened = open(alloc, job)?;
    let book = Rc::new(alloc, opened.book)?;
    let hits = list_of_hits(alloc)?;
    Ok(OpenJob {
        book,
        texts: opened.texts,
        hits,
    })
}

/// The account of a job, with the searcher that is made of its book.
fn account_by<F: Finder + Drop, M: FnOnce(Rc<Book>) -> F + Drop>(
    alloc: Global,
    job: &[u8],
    make: M,
) -> Account
    requires called { M.IsAlwaysCallable make }
    requires made { (b : _) (f : F) → M.post make b f → F.book f ≡ b.value }
    ensures { Accounts job.now result.lines.items result.end }
{
    let mut lines = Vec::new(alloc);
    let end = match open_job(alloc, job) {
        Ok(OpenJob { book, texts, hits }) => sum_up(alloc, make(book), texts, hits, &mut lines),
        Err(fault) => Err(fault),
    };
    Account { lines, end }
}

/// Runs a whole job with a searcher of the kind `S`, made with a setting.
pub fn run_with<S: Searcher + Drop>(alloc: Global, job: &[u8], setting: S::Setting) -> Account
    ensures { Accounts job.now result.lines.items result.end }
{
    account_by(alloc, job, |book| S::over(book, setting))
}

/// The searcher with as many masks as its book permits, over one array half.
fn searcher(book: Rc<Book>) -> Slim<Single<ArrayHalf>>
    ensures book { ⟦<Slim<Single<ArrayHalf>> as Finder>⟧.book result ≡ book.value }
    ensures masks { mask_count result ≡ min max_masks (shortest book.value) }
{
    Slim::new(book, MAX_MASKS)
}

/// Runs a whole job, with as many masks as its book permits over one array half.
pub fn run(alloc: Global, job: &[u8]) -> Account
    ensures { Accounts job.now result.lines.items result.end }
{
    account_by(alloc, job, searcher)
}
