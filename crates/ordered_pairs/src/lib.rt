//! Pairs that are found by their first part.
//!
//! A tree of pairs in the order of their first parts, and where these are equal of their second parts, has the pairs with
//! one first part side by side. A range of such a tree has a pair at each end, so who seeks them names a least and a
//! greatest second part. This room keeps these two: the span of all second parts that ever came. It stands on the records
//! of `surge_outside`, and below the rooms whose trees have such pairs: joins, with the products that wait for a time, and
//! reduces, with the points of a key and the keys that are due at a time. It offers [`widened`], and in `specs/` what a
//! span is (`Spans`), and the laws of those rooms' proofs: with a span, the pairs with one first part are a range
//! (`SpanLaws`); taken out one by one, they leave the others as they stood (`FirstParts`).
#![tactic(auto)]

mod span;

pub use span::widened;
