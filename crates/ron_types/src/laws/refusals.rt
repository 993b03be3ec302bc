//! By which errors types refuse data: by refusals of data alone, and so by no error of a text, a device or a writer. Types
//! that hold others do where those do.
ghost use Rattle.ron_types.specs.Faults.{OwnOr};
ghost use Rattle.ron_types.specs.Laws.{AreRefusals, AreRowRefusals};

use crate::rows::FromRow;
use crate::traits::{Deserialize, MapKey};
use ron_de_raw::raw::RawValue;
use ron_value::value::Value;
use std::collections::BTreeMap;

/// Types that hold no other, but integers.
pub fn leaves_refuse_as_data<'a>()
    ensures booleans { AreRefusals ⟦<bool as Deserialize<'a>>⟧.refuses }
    ensures characters { AreRefusals ⟦<char as Deserialize<'a>>⟧.refuses }
    ensures texts { AreRefusals ⟦<String as Deserialize<'a>>⟧.refuses }
    ensures borrowed_texts { AreRefusals ⟦<&'a str as Deserialize<'a>>⟧.refuses }
    ensures units { AreRefusals ⟦<() as Deserialize<'a>>⟧.refuses }
    ensures values { AreRefusals ⟦<Value as Deserialize<'a>>⟧.refuses }
    ensures raw_texts { AreRefusals ⟦<RawValue<'a> as Deserialize<'a>>⟧.refuses }
{}

/// Integers of each width.
pub fn integers_refuse_as_data<'a>()
    ensures signed_8 { AreRefusals ⟦<i8 as Deserialize<'a>>⟧.refuses }
    ensures signed_16 { AreRefusals ⟦<i16 as Deserialize<'a>>⟧.refuses }
    ensures signed_32 { AreRefusals ⟦<i32 as Deserialize<'a>>⟧.refuses }
    ensures signed_64 { AreRefusals ⟦<i64 as Deserialize<'a>>⟧.refuses }
    ensures signed_128 { AreRefusals ⟦<i128 as Deserialize<'a>>⟧.refuses }
    ensures unsigned_8 { AreRefusals ⟦<u8 as Deserialize<'a>>⟧.refuses }
    ensures unsigned_16 { AreRefusals ⟦<u16 as Deserialize<'a>>⟧.refuses }
    ensures unsigned_32 { AreRefusals ⟦<u32 as Deserialize<'a>>⟧.refuses }
    ensures unsigned_64 { AreRefusals ⟦<u64 as Deserialize<'a>>⟧.refuses }
    ensures unsigned_128 { AreRefusals ⟦<u128 as Deserialize<'a>>⟧.refuses }
{}

/// Optional values, values in boxes, and lists.
pub fn parts_refuse_as_data<'a, T: Deserialize<'a>>()
    ensures options { AreRefusals T.refuses → AreRefusals ⟦<Option<T> as Deserialize<'a>>⟧.refuses }
    ensures boxes { AreRefusals T.refuses → AreRefusals ⟦<Box<T> as Deserialize<'a>>⟧.refuses }
    ensures lists { AreRefusals T.refuses → AreRefusals ⟦<Vec<T> as Deserialize<'a>>⟧.refuses }
{}

/// Maps.
pub fn maps_refuse_as_data<'a, K: MapKey + Deserialize<'a>, V: Deserialize<'a>>()
    ensures { AreRefusals K.refuses → AreRefusals V.refuses →
        AreRefusals ⟦<BTreeMap<K, V> as Deserialize<'a>>⟧.refuses }
{}

/// Types in a row: none, and one before others.
pub fn rows_refuse_as_data<'a, A: Deserialize<'a>, R: FromRow<'a>>()
    ensures none { AreRowRefusals ⟦<() as FromRow<'a>>⟧.refuses }
    ensures more { AreRefusals A.refuses → AreRowRefusals R.refuses →
        AreRowRefusals ⟦<(A, R) as FromRow<'a>>⟧.refuses }
{}

/// What is made of a row: structs, and what variants of enums hold.
pub fn structs_refuse_as_data<'a, R: FromRow<'a>>()
    ensures { AreRowRefusals R.refuses → AreRowRefusals (OwnOr R.refuses) }
{}

/// Tuples of one to four items.
pub fn tuples_refuse_as_data<
    'a,
    A: Deserialize<'a>,
    B: Deserialize<'a>,
    C: Deserialize<'a>,
    D: Deserialize<'a>,
>()
    ensures one { AreRefusals A.refuses → AreRefusals ⟦<(A,) as Deserialize<'a>>⟧.refuses }
    ensures two { AreRefusals A.refuses → AreRefusals B.refuses → AreRefusals ⟦<(A, B) as Deserialize<'a>>⟧.refuses }
    ensures three { AreRefusals A.refuses → AreRefusals B.refuses → AreRefusals C.refuses →
        AreRefusals ⟦<(A, B, C) as Deserialize<'a>>⟧.refuses }
    ensures four { AreRefusals A.refuses → AreRefusals B.refuses → AreRefusals C.refuses → AreRefusals D.refuses →
        AreRefusals ⟦<(A, B, C, D) as Deserialize<'a>>⟧.refuses }
{}
