//! What no clause says: that ample memory suffices, on each public call's way.

ghost use Rattle.std.specs.Prelude.{◌≡◌, true, IfOk};
ghost use Rattle.x5_merge.specs.Merging.{is_list};

use std::alloc::Global;
use std::test::Fail;
use x5_merge::{limit, merge};
use x5_names::Rdn;
use x5_ops::{Answer, Listed, Outcome, Sub};

/// A list's answer with these names, all from a shadow or all from a master.
fn part(alloc: Global, names: &[&str], copy: bool) -> Result<Answer, Fail>
    ensures { IfOk result (λ a. is_list a ≡ true) }
{
    let mut subs = Listed::new(alloc);
    for name in names {
        let rdn = Rdn::parse(alloc, name)?;
        subs.push(Sub { rdn, copy })?;
    }
    Ok(Answer::Listed {
        subs,
        sources: Listed::new(alloc),
        outcome: Outcome {
            limited: false,
            unexplored: Listed::new(alloc),
        },
    })
}

fn merged(alloc: Global, first: Answer, second: Answer, third: Answer) -> Result<Answer, Fail>
    requires first { is_list first ≡ true }
    requires second { is_list second ≡ true }
    requires third { is_list third ≡ true }
{
    let parts = vec![in alloc; first, second, third]?;
    Ok(merge(alloc, Listed::from_vec(parts))?)
}

/// Two parts, joined with a third.
fn with_third(alloc: Global, first: Answer, second: Answer) -> Result<Answer, Fail>
    requires first { is_list first ≡ true }
    requires second { is_list second ≡ true }
{
    match part(alloc, &["O=a", "O=D"], false) {
        Ok(third) => merged(alloc, first, second, third),
        Err(fault) => {
            drop(second);
            drop(first);
            Err(fault)
        }
    }
}

/// Three parts, joined.
fn joined(alloc: Global) -> Result<Answer, Fail> {
    let first = part(alloc, &["O=b", "O=d"], false)?;
    match part(alloc, &["O=A", "O=B", "O=c"], true) {
        Ok(second) => with_third(alloc, first, second),
        Err(fault) => {
            drop(first);
            Err(fault)
        }
    }
}

/// The names of a list, each with `*` behind it where it comes from a shadow, and `...` where more was cut.
fn shown(alloc: Global, answer: &Answer) -> Result<String, Fail> {
    let mut text = String::new(alloc);
    if let Answer::Listed { subs, outcome, .. } = answer {
        for sub in subs.as_slice() {
            text.push_str(sub.rdn.text(alloc)?.as_str())?;
            text.push_str(if sub.copy { "* " } else { " " })?;
        }
        if outcome.limited {
            text.push_str("...")?;
        }
    }
    Ok(text)
}

/// The names of the parts, joined and cut to so many.
fn limited(alloc: Global, count: u32) -> Result<String, Fail> {
    let mut answer = joined(alloc)?;
    limit(&mut answer, count);
    let text = shown(alloc, &answer);
    drop(answer);
    text
}

#[test]
fn parts_are_joined_and_then_limited(rt: HostRuntime) -> Result<(), Fail> {
    let alloc = rt.alloc();
    for (count, expected) in [
        (5, "O=A* O=b O=c* O=d "),
        (4, "O=A* O=b O=c* O=d "),
        (3, "O=A* O=b O=c* ..."),
        (0, "..."),
    ] {
        let text = limited(alloc, count)?;
        assert_eq!(rt; text.as_str(), expected);
    }
    Ok(())
}
