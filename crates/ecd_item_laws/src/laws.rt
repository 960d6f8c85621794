//! Laws of items, their encodings and first faults: facts about the definitions alone.

ghost use Rattle.ecd_item_laws.specs.Laws.{BeginsWithOneItem, EncodesOneItem, EncodingHasNoFault, EveryBytesHaveOne, HasNoProperPrefix, HasOneEncoding, HasOneFirstFault, IsNoDeeperThanLong};

/// An item has at most one encoding; no bytes encode two items; no encoding is a proper prefix of another.
pub fn one_encoding()
    ensures one_encoding { HasOneEncoding }
    ensures one_item { EncodesOneItem }
    ensures no_proper_prefix { HasNoProperPrefix }
    ensures one_front { BeginsWithOneItem }
{}

/// Bytes begin with the encoding of an item within the depth or have a first fault, never both and never two.
pub fn one_first_fault()
    ensures one_fault { HasOneFirstFault }
    ensures no_fault { EncodingHasNoFault }
    ensures always_one { EveryBytesHaveOne }
{}

/// An item nests no deeper than its encoding is long.
pub fn no_deeper_than_long()
    ensures { IsNoDeeperThanLong }
{}
