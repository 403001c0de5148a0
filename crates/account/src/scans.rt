ghost use Rattle.std.specs.Prelude.{◌≡◌, ◌+◌, ◌≤◌, ◌++◌, true, [], Ok, Err, map, length, is_ok, vec_len, vec_capacity, IfOk, OnOk, IfErr, OnErr};
ghost use Rattle.rules.specs.declared.fault.Refusal.TheVariants.{Memory};
ghost use Rattle.rules.specs.Limits.{max_hits};
ghost use Rattle.rules.specs.Listing.{listing};
ghost use Rattle.rules.specs.Faults.{refused, placed};
ghost use Rattle.intake.specs.Ledger.{starts};
ghost use Rattle.intake.specs.History.{Counted, Keeps};
ghost use Rattle.job.specs.Reading.{reading};
ghost use Rattle.job.specs.Memory.{Refuses};
ghost use Rattle.account.specs.Texts.{line, scanned};
ghost use Rattle.account.specs.Accounts.{TextsServed};

use crate::account::Line;
use finder::Finder;
use intake::Intake;
use job::{Reader, Record};
use rules::{Fault, Match, PatternID, Refusal};
use std::alloc::{AllocError, Global};

/// How many hits a text may have.
pub(crate) const MAX_HITS: usize = 4096;

/// What an entry is before a hit is written to it.
const BLANK: Match = Match {
    pattern: PatternID::ZERO,
    start: 0,
    end: 0,
};

/// The list that each scan of a job is handed. It is allocated, since its 96 KiB are much for a stack.
pub(crate) fn list_of_hits(alloc: Global) -> Result<Vec<Match>, AllocError>
    ensures { IfOk result (λ v. vec_len v ≡ max_hits) }
{
    Ok(vec![in alloc; BLANK; MAX_HITS]?)
}

/// Notes the hits of a text, for which there is room. `extend` may fail, and the text is counted by now.
fn note(lines: &mut Vec<Line>, text: u32, hits: &[Match])
    requires { vec_len lines.old + length hits.now ≤ vec_capacity lines.old }
    ensures { lines.new.items ≡ lines.old.items ++ map (line text) hits.now }
{
    for hit in hits {
        lines.push_reserved(Line { text, hit: *hit });
    }
}

/// Scans one text, and notes its hits.
pub(crate) fn scan_text<F: Finder>(
    intake: &mut Intake<F>,
    lines: &mut Vec<Line>,
    hits: &mut [Match],
    place: usize,
    text: &[u8],
) -> Result<(), Fault>
    requires { length hits.old ≡ max_hits }
    ensures accepted { OnOk result (is_ok (scanned intake.old.book intake.old.accepted text.now) ≡ true) }
    ensures counted { OnOk result (Counted intake.old text.now intake.new) }
    ensures noted { OnOk result (lines.new.items ≡ lines.old.items ++ map (line intake.old.accepted) (listing intake.old.book text.now)) }
    ensures err { IfErr result (Refuses (placed place (scanned intake.old.book intake.old.accepted text.now)) (λ f. f ≡ refused 0 Memory)) }
    ensures same_intake { OnErr result (intake.new ≡ intake.old) }
    ensures same_lines { OnErr result (lines.new.items ≡ lines.old.items) }
{
    lines.try_reserve(MAX_HITS)?;
    let number = intake.count();
    let n = intake.scan_at(place, text, hits)?;
    note(lines, number, hits.split_at(n).0);
    Ok(())
}

/// Scans the texts that are left to read, with an intake that has accepted none. Each scan writes to the list `hits`. The intake is
/// lent, and not handed back, since it has some 20 KiB.
pub(crate) fn scan_texts<F: Finder>(
    intake: &mut Intake<F>,
    mut texts: Reader<'_>,
    hits: &mut [Match],
    lines: &mut Vec<Line>,
) -> Result<(), Fault>
    requires fresh { Keeps (starts intake.old.book) intake.old }
    requires room { length hits.old ≡ max_hits }
    requires lines { lines.old.items ≡ [] }
    ensures ok { OnOk result (TextsServed intake.old.book (reading texts.entry.job.now texts.entry.at) lines.new.items (Ok intake.new)) }
    ensures err { IfErr result (λ f. TextsServed intake.old.book (reading texts.entry.job.now texts.entry.at) lines.new.items (Err f)) }
{
    // No `for`: a fault leaves the reader where it is, so that as an iterator it would not end.
    while let Some(placed) = texts.next()? {
        let Record::Text(text) = placed.record else {
            return Err(Refusal::AfterText.at(placed.place));
        };
        scan_text(intake, lines, hits, placed.place, text)?;
    }
    Ok(())
}
