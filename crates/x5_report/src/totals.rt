//! The counts of a run, and the line that sums them up.

ghost use Rattle.std.specs.Prelude.{◌≡◌, ◌++◌, ◌∷◌, [], ℕ, List, IfOk, codes, length, string_bytes};
ghost use Rattle.std.specs.Fmt.{decimal};
ghost use Rattle.std.specs.List.{concat};
ghost use Rattle.x5_model_run.specs.Run.{Block};
ghost use Rattle.x5_model_output.specs.Summary as sums;
ghost use Rattle.x5_ops.specs.AnswerViews.{answer_view, reply_view};
ghost use Rattle.x5_ops.specs.JournalViews.{fate_view};
ghost use Rattle.x5_report.specs.Spelled as spelled;
ghost use Rattle.x5_report.specs.Counted.{totals_view, told_counts, counts_for, IsOf};
ghost use Rattle.x5_ops.specs.RefreshViews.{refreshed_view};

use crate::octets::first_message;
use crate::report::LineOutcome;
use std::alloc::{AllocError, Global};
use x5_memory::NoMemory;
use x5_ops::{Answer, Fate, Journal, Refreshed, Reply};
use x5_syntax::Text;

/// How many requests a script had, apart from those that octets bring, and how many lines of its blocks begin with `entry`, `sub`, `error`, `referral`,
/// `unexplored`, `accepted` and `refreshed`. A count stops at 2^64 - 1.
#[derive(Clone, Copy, PartialEq, Eq)]
pub struct Totals {
    pub requests: u64,
    pub entries: u64,
    pub subs: u64,
    pub errors: u64,
    pub referrals: u64,
    pub unexplored: u64,
    pub accepted: u64,
    pub refreshed: u64,
}

/// What is counted of an answer.
fn of_answer(answer: &Answer) -> Totals
    ensures { (names : List (List ℕ)) → totals_view result ≡ sums.answer_counts (answer_view names answer.now) }
{
    let none = Totals::new();
    match answer {
        Answer::Entry { .. } => Totals { entries: 1, ..none },
        Answer::Listed { subs, outcome, .. } => Totals {
            subs: subs.len() as u64,
            unexplored: outcome.unexplored.len() as u64,
            ..none
        },
        Answer::Found {
            entries,
            outcome,
            ..
        } => Totals {
            entries: entries.len() as u64,
            unexplored: outcome.unexplored.len() as u64,
            ..none
        },
        Answer::Match { .. } | Answer::Changed => none,
    }
}

/// What is counted of a reply.
fn of_reply(reply: &Reply) -> Totals
    ensures { (names : List (List ℕ)) → totals_view result ≡ sums.reply_counts (reply_view names reply.now) }
{
    let none = Totals::new();
    match reply {
        Reply::Done(answer) => of_answer(answer),
        Reply::Failed(_) => Totals { errors: 1, ..none },
        Reply::Refer(_) => Totals {
            referrals: 1,
            ..none
        },
    }
}

/// What is counted of a request whose update so many agents accepted.
fn of_request(reply: &Reply, agents: usize) -> Totals
    ensures { (names : List (List ℕ)) → totals_view result ≡ sums.request_counts agents (reply_view names reply.now) }
{
    Totals {
        requests: 1,
        accepted: agents as u64,
        ..of_reply(reply)
    }
}

/// What is counted of a reply to a message with this fate: nothing where it isn't heard.
fn of_heard(fate: Fate, reply: &Reply) -> Totals
    ensures { (names : List (List ℕ)) → totals_view result ≡ sums.heard_counts (fate_view fate) (reply_view names reply.now) }
{
    match fate {
        Fate::Lost | Fate::NoReply => Totals::new(),
        Fate::Sent => of_reply(reply),
    }
}

/// What is counted of a message that octets brought.
fn of_handed(journal: &Journal, reply: &Reply) -> Totals
    ensures { (names : List (List ℕ)) → totals_view result
        ≡ counts_for (spelled.first_message journal.now.lines) (length journal.now.accepted) (reply_view names reply.now) }
{
    let heard = match first_message(journal.lines.as_slice()) {
        None => Totals::new(),
        Some((_, fate, _)) => of_heard(fate, reply),
    };
    Totals {
        accepted: journal.accepted.len() as u64,
        ..heard
    }
}

/// What is counted of a refresh.
fn of_refresh(number: u32, became: &Refreshed, heard: bool) -> Totals
    ensures { totals_view result ≡ sums.refresh_counts (refreshed_view heard number became.now) }
{
    let none = Totals::new();
    match became {
        Refreshed::Total(..) | Refreshed::Incremental(..) | Refreshed::Nothing(..) => Totals {
            refreshed: 1,
            ..none
        },
        Refreshed::Lost => none,
        Refreshed::Failed { .. } => Totals { errors: 1, ..none },
    }
}

/// What is counted of a command's block.
fn of_block(journal: &Journal, outcome: &LineOutcome) -> Totals
    ensures { (names : List (List ℕ)) → totals_view result ≡ told_counts names journal.now outcome.now }
{
    match outcome {
        LineOutcome::Set => Totals::new(),
        LineOutcome::Answered(reply) => of_request(reply, journal.accepted.len()),
        LineOutcome::Plain(reply) => of_request(reply, 0),
        LineOutcome::Refreshed(number, became, heard) => of_refresh(*number, became, *heard),
        LineOutcome::NotConsistent => Totals {
            errors: 1,
            ..Totals::new()
        },
        LineOutcome::Handed { reply, .. } => of_handed(journal, reply),
        LineOutcome::Rejected { .. } => Totals::new(),
    }
}

impl Totals {
    /// Nothing is counted yet. No memory.
    pub fn new() -> Totals
        ensures { totals_view result ≡ sums.no_counts }
    {
        Totals {
            requests: 0,
            entries: 0,
            subs: 0,
            errors: 0,
            referrals: 0,
            unexplored: 0,
            accepted: 0,
            refreshed: 0,
        }
    }

    /// Both counts together.
    fn with(&self, other: &Totals) -> Totals
        ensures { totals_view result ≡ sums.capped_counts (sums.both (totals_view self.now) (totals_view other.now)) }
    {
        Totals {
            requests: self.requests.saturating_add(other.requests),
            entries: self.entries.saturating_add(other.entries),
            subs: self.subs.saturating_add(other.subs),
            errors: self.errors.saturating_add(other.errors),
            referrals: self.referrals.saturating_add(other.referrals),
            unexplored: self.unexplored.saturating_add(other.unexplored),
            accepted: self.accepted.saturating_add(other.accepted),
            refreshed: self.refreshed.saturating_add(other.refreshed),
        }
    }

    /// Adds what the block of a command has, of which `block` prints the lines. Where these are the counts of the blocks of a run
    /// so far, they are with this block those of the run. No memory.
    pub fn count(&mut self, journal: &Journal, outcome: &LineOutcome)
        ensures adds { (names : List (List ℕ)) → totals_view self.new ≡ sums.capped_counts (sums.both (totals_view self.old) (told_counts names journal.now outcome.now)) }
        ensures of_run { (names : List (List ℕ)) (b : Block) (blocks : List Block) → IsOf names journal.now outcome.now b
            → totals_view self.old ≡ sums.capped_counts (sums.counts_of blocks) → totals_view self.new ≡ sums.capped_counts (sums.counts_of (blocks ++ b ∷ [])) }
    {
        let more = of_block(journal, outcome);
        *self = self.with(&more);
    }
}

/// The first four counts.
fn found(
    alloc: Global,
    requests: u64,
    entries: u64,
    subs: u64,
    errors: u64,
) -> Result<String, AllocError>
    ensures { IfOk result (λ text. string_bytes text ≡ concat (codes "summary requests " ∷ decimal requests ∷ codes " entries " ∷ decimal entries ∷ codes " subs " ∷ decimal subs ∷ codes " errors " ∷ decimal errors ∷ [])) }
{
    format!(in alloc; "summary requests {requests} entries {entries} subs {subs} errors {errors}")
}

/// The other four.
fn left(
    alloc: Global,
    referrals: u64,
    unexplored: u64,
    accepted: u64,
    refreshed: u64,
) -> Result<String, AllocError>
    ensures { IfOk result (λ text. string_bytes text ≡ concat (codes " referrals " ∷ decimal referrals ∷ codes " unexplored " ∷ decimal unexplored ∷ codes " accepted " ∷ decimal accepted ∷ codes " refreshed " ∷ decimal refreshed ∷ codes "\n" ∷ [])) }
{
    format!(in alloc;
        " referrals {referrals} unexplored {unexplored} accepted {accepted} refreshed {refreshed}\n"
    )
}

/// The line of the counts.
fn line(alloc: Global, totals: &Totals) -> Result<String, NoMemory>
    ensures { IfOk result (λ text. string_bytes text ≡ sums.summary_line (totals_view totals.now)) }
{
    let mut text = found(
        alloc,
        totals.requests,
        totals.entries,
        totals.subs,
        totals.errors,
    )?;
    let left = left(
        alloc,
        totals.referrals,
        totals.unexplored,
        totals.accepted,
        totals.refreshed,
    )?;
    text.push_str(left.as_str())?;
    Ok(text)
}

/// The summary line of these counts.
pub fn summary(alloc: Global, totals: &Totals) -> Result<Text, NoMemory>
    ensures { IfOk result (λ text. text ≡ sums.summary_line (totals_view totals.now)) }
{
    Ok(Text::from_string(line(alloc, totals)?))
}
