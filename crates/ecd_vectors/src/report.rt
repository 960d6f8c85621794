//! The cases of a table.

ghost use Rattle.std.specs.Prelude.{◌≡◌, ◌<◌, ◌^◌, IfOk, length};
ghost use Rattle.std.specs.List.{count_by};
ghost use Rattle.ecd_vectors.specs.Passing.{AreVerdicts, IsFirstFalse, IsReport};

use crate::case::{Case, passes};
use ecd_list::OutOfMemory;
use std::alloc::Global;

/// How a table did.
#[derive(Clone, Copy, Debug, PartialEq, Eq)]
pub struct Report {
    /// How many cases pass.
    pub passed: u32,
    /// The number of the first case that does not, from 0. None exactly where all pass.
    pub first_failed: Option<u32>,
}

/// A verdict for each case.
fn verdicts_on(alloc: Global, cases: &[Case]) -> Result<Vec<bool>, OutOfMemory>
    ensures { IfOk result (λ verdicts. AreVerdicts cases.now verdicts.items) }
{
    let mut verdicts = Vec::new(alloc);
    for case in cases {
        let verdict = passes(alloc, case)?;
        verdicts.push(verdict)?;
    }
    Ok(verdicts)
}

/// How many of the verdicts are true.
fn passed(verdicts: &[bool]) -> u32
    requires { length verdicts.now < 2 ^ 32 }
    ensures { result ≡ count_by (λ v. v) verdicts.now }
{
    verdicts.iter().filter(|verdict| **verdict).count() as u32
}

/// The number of the first verdict that is false.
fn first_failed(verdicts: &[bool]) -> Option<u32>
    requires { length verdicts.now < 2 ^ 32 }
    ensures { IsFirstFalse verdicts.now result }
{
    let mut at = 0u32;
    for verdict in verdicts {
        if !*verdict {
            return Some(at);
        }
        at += 1;
    }
    None
}

/// How the cases do: each passes where the reader of its compiled schema takes as many bytes as it says.
///
/// There are fewer than 2^32 cases.
///
/// # Errors
///
/// `OutOfMemory` where a growth was refused, or a schema or its reader wants memory.
pub fn check_cases(alloc: Global, cases: &[Case]) -> Result<Report, OutOfMemory>
    requires { length cases.now < 2 ^ 32 }
    ensures { IfOk result (λ report. IsReport cases.now report) }
{
    let verdicts = verdicts_on(alloc, cases)?;
    Ok(Report {
        passed: passed(verdicts.as_slice()),
        first_failed: first_failed(verdicts.as_slice()),
    })
}
