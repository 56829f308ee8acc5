//! A change by hand to a value of a thousand digits.

use crate::told::expect_told;
use lab_core::event::Event;
use lab_core::lab::Lab;
use lab_test_kit::script::{poke, tell_event};
use std::alloc::{AllocError, Global};
use std::rt::HostRuntime;

// This digit a thousand times.
fn thousand(alloc: Global, digit: &str) -> Result<String, AllocError> {
    let mut value = String::new(alloc);
    for _ in 0..1000u16 {
        value.push_str(digit)?;
    }
    Ok(value)
}

// Changes A by hand to a value that is this digit a thousand times.
fn tell_thousand(
    alloc: Global,
    lab: &mut Lab,
    digit: &str,
    told: &mut String,
) -> Result<(), AllocError> {
    let value = thousand(alloc, digit)?;
    let event = poke(alloc, 1, "A", value.as_str());
    drop(value);
    tell_event(lab, event?, told)
}

// What a stopped run's board answers to a thousand nines and to a thousand zeros.
fn thousands(alloc: Global, lab: &mut Lab, told: &mut String) -> Result<(), AllocError> {
    tell_event(lab, Event::Attach, told)?;
    tell_event(lab, Event::Start(0), told)?;
    tell_event(lab, Event::Pause, told)?;
    tell_thousand(alloc, lab, "9", told)?;
    tell_thousand(alloc, lab, "0", told)
}

fn tell_on_new(alloc: Global, told: &mut String) -> Result<(), AllocError> {
    let mut lab = Lab::new(alloc)?;
    let put = thousands(alloc, &mut lab, told);
    drop(lab);
    put
}

const TOLD: &str = "\
Accepted
Started
Accepted
refused: the value is no number that fits there
Poked 000H
";

#[test]
fn values_of_a_thousand_digits_are_read(rt: HostRuntime) {
    let mut told = String::new(rt.alloc());
    let put = tell_on_new(rt.alloc(), &mut told);
    expect_told(&rt, "a thousand digits", put, told, TOLD);
}
