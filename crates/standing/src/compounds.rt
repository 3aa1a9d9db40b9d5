//! The compound types: each has the relation that its parts' relations make.
ghost use Rattle.format.specs.Standing.{OptionStands, ResultStands, BoundStands, PairStands};
ghost use Rattle.meanings.proofs.OfCompounds.{option_stands, result_stands, bound_stands, pair_stands};

use crate::Standing;
use decodes::decode::Decode;
use elements::element::Element;
use std::ops::Bound;

impl<T: Standing> Standing for Option<T> {
    ghost stands = { λ o i. OptionStands (T.Standing.stands o i) };

    ghost law = { option_stands T.Element.meaning T.Decode.reading T.Standing.stands T.Standing.law };
}

impl<T: Standing, U: Standing> Standing for Result<T, U> {
    ghost stands = { λ o i. ResultStands o i (T.Standing.stands o i) (U.Standing.stands o i) };

    ghost law = { result_stands T.Element.meaning U.Element.meaning T.Decode.reading U.Decode.reading T.Standing.stands U.Standing.stands T.Standing.law U.Standing.law };
}

impl<T: Standing> Standing for Bound<T> {
    ghost stands = { λ o i. BoundStands o i (T.Standing.stands o i) };

    ghost law = { bound_stands T.Element.meaning T.Decode.reading T.Standing.stands T.Standing.law };
}

impl<T: Standing + Drop, U: Standing> Standing for (T, U) {
    ghost stands = { λ o i. PairStands (T.Standing.stands o i) (U.Standing.stands o i) };

    ghost law = { pair_stands T.Element.meaning U.Element.meaning T.Decode.reading U.Decode.reading T.Standing.stands U.Standing.stands T.Standing.law U.Standing.law };
}
