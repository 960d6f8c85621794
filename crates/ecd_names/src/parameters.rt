//! The parameters of a rule (RFC 8610, section 3.10).

ghost use Rattle.std.specs.Prelude.{◌≡◌, ◌<◌, ◌^◌, ℕ, length, Some, None, IfOk, OnOk, is_some, if◌then◌else◌, bytes_eq, List};
ghost use Rattle.ecd_first.specs.Firsts.{offset, Sees, AnyBelow};
ghost use Rattle.ecd_names.specs.Parameters.{under, or_first, comes_before, AreParameters, RepeatsOne};

use ecd_first::First;
use ecd_list::OutOfMemory;
use ecd_syntax::Name;
use std::alloc::Global;
use std::collections::BTreeMap;

/// The most parameters that a rule has.
const MOST_PARAMETERS: usize = 0xFFFF_FFFF;

/// Numbers under names.
type Numbers = BTreeMap<Vec<u8>, usize>;

/// The parameters of a rule, under their names: the number of the first of each.
#[derive(Debug, Drop)]
pub(crate) struct Parameters {
    firsts: Numbers,
}

impl Parameters {
    /// The parameters under their names.
    pub(crate) fn of(alloc: Global, params: &[Name]) -> Result<Parameters, OutOfMemory>
        ensures known { IfOk result (λ known. AreParameters params.now known) }
        ensures counted { IfOk result (λ _. length params.now < 2 ^ 32) }
    {
        if params.len() > MOST_PARAMETERS {
            return Err(OutOfMemory);
        }
        let mut firsts = BTreeMap::new(alloc);
        for (number, param) in params.iter().enumerate() {
            put_first(alloc, &mut firsts, param.text.as_slice(), number)?;
        }
        Ok(Parameters { firsts })
    }

    /// Whether a parameter has the name.
    pub(crate) fn has(&self, name: &[u8]) -> bool
        ensures { result ≡ is_some (under self.now.firsts name.now) }
    {
        self.firsts.contains_key(name)
    }

    /// Whether a parameter before this number has the name.
    fn has_before(&self, number: usize, name: &[u8]) -> bool
        ensures { result ≡ comes_before (under self.now.firsts name.now) number }
    {
        match self.firsts.get(name) {
            Some(first) => *first < number,
            None => false,
        }
    }
}

/// Puts a number under a name that has none.
fn put_first(
    alloc: Global,
    numbers: &mut Numbers,
    name: &[u8],
    number: usize,
) -> Result<(), OutOfMemory>
    ensures { OnOk result ((g : List ℕ) → under numbers.new g ≡ or_first (under numbers.old g) (if bytes_eq name.now g then Some number else None)) }
{
    if !numbers.contains_key(name) {
        let key = Vec::from_slice(alloc, name)?;
        match numbers.insert(key, number) {
            Ok(_) => {}
            Err(_) => return Err(OutOfMemory),
        }
    }
    Ok(())
}

/// N1 stands at each parameter that has the name of an earlier one of its rule.
pub(crate) fn judge_parameters(first: &mut First<u32>, params: &[Name], known: &Parameters)
    requires { AreParameters params.now known.now }
    ensures { Sees offset first.old.broken first.new.broken (RepeatsOne params.now) }
{
    for (number, param) in params.iter().enumerate() {
        let repeats = known.has_before(number, param.text.as_slice());
        first.note(repeats, param.at, 1);
    }
}
