//! Numbers that four octets count. Each function here does nothing; its clause is a law.
ghost use Rattle.x5_model_fitting.specs.Requests.{CountWithin, IfThere};

use x5_ops::Moment;

/// Four octets count a number of 32 bits.
pub(crate) fn number(number: u32)
    ensures { CountWithin number }
{
    let _number = number;
}

/// They count a moment.
pub(crate) fn moment(moment: Option<Moment>)
    ensures { IfThere CountWithin moment }
{
    match moment {
        Some(moment) => number(moment.0),
        None => {}
    }
}
