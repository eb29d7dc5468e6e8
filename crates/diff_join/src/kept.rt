//! Products that wait for their times.

ghost use Rattle.std.specs.Prelude.{◌≡◌, ◌≢◌, ◌⊎◌, [], ◌∷◌, ◌++◌, IfOk, OnOk, OnErr, if◌then◌else◌};
ghost use Rattle.std.specs.Ordering.{is_ne};
ghost use Rattle.std.specs.Option.{unwrap_or};
ghost use Rattle.std.specs.BTreeMap.{get};
ghost use Rattle.weighted.specs.Alike.{Alike};
ghost use Rattle.weighted.specs.Batches.{IsBatch};
ghost use Rattle.weighted.specs.Normal.{normal};
ghost use Rattle.weighted.specs.WordLaws.{mapped};
ghost use Rattle.trace_store.specs.Traces.{in_turn};
ghost use Rattle.flow_core.specs.Runs.{IsNextDue, Member};
ghost use Rattle.diff_join.specs.Joins.{due_times, products_after, products_at};

use lattice_time::Time;
use ordered_pairs::widened;
use std::alloc::Global;
use std::collections::{BTreeMap, btree_map};
use std::marker::Model;
use std::ops::Bound;
use surge_outside::{List, NoMemory, Record};
use weighted::{Batch, Weight};

/// Products that wait for their times: a collection of records, each at a time. They are in the order of their times,
/// and at one time in that of the records. It keeps the least and the greatest record that ever waited, so that the
/// products of one time are a range. Contracts see its entries.
#[derive(Drop)]
pub(crate) struct Kept<T: Record, O: Record> {
    alloc: Global,
    products: BTreeMap<(T, O), Weight>,
    span: Option<(O, O)>,
}

impl<T: Record, O: Record> Model for Kept<T, O> {
    ghost use Rattle.std.specs.Prelude.{List, ℕ};
    ghost use Rattle.std.specs.Map.{keys_of};
    ghost use Rattle.weighted.specs.Batches.{IsBatch};
    ghost use Rattle.trace_store.specs.Traces.{in_turn};
    ghost use Rattle.ordered_pairs.specs.Spans.{IsSpanned};

    ghost Value = { List ((T × O) × ℕ) };

    ghost view = { λ kept. kept.products.entries };

    ghost invariant = { λ kept. IsBatch (in_turn T.cmp O.cmp) kept.products.entries × IsSpanned O.cmp kept.span (keys_of kept.products.entries) };
}

/// The weight of a product, zero where it does not wait.
fn weight_of<T: Record, O: Record>(products: &BTreeMap<(T, O), Weight>, product: &(T, O)) -> Weight
    ensures { result ≡ unwrap_or (get (in_turn T.cmp O.cmp) products.now product.now) 0 }
{
    match products.get(product) {
        Some(weight) => *weight,
        None => Weight(0),
    }
}

/// Adds a weight to that of a product. One whose weight is zero then is taken out.
///
/// Errors: out of memory; the products are then as they were.
fn add_weight<T: Record, O: Record>(
    products: &mut BTreeMap<(T, O), Weight>,
    product: (T, O),
    weight: Weight,
) -> Result<(), NoMemory>
    requires { IsBatch (in_turn T.cmp O.cmp) products.old.entries }
    ensures sums { OnOk result (products.new.entries ≡ normal (in_turn T.cmp O.cmp) (products.old.entries ++ (product, weight) ∷ [])) }
    ensures err { OnErr result (products.new.entries ≡ products.old.entries) }
{
    let sum = weight_of(products, &product).add(weight);
    if sum.is_zero() {
        products.remove(&product);
        return Ok(());
    }
    products.insert(product, sum)?;
    Ok(())
}

/// Adds the records of products, without their times.
fn push_outputs<T: Record, O: Record>(
    outputs: &mut Vec<(O, Weight)>,
    products: btree_map::Range<'_, (T, O), Weight>,
) -> Result<(), NoMemory>
    ensures { OnOk result (outputs.new.items ≡ outputs.old.items ++ mapped (λ r. r.1) products.entry) }
{
    for (product, weight) in products {
        outputs.push((product.1, *weight))?;
    }
    Ok(())
}

/// Takes out the products of a time, which are these records with their weights, in order.
fn take_out<T: Record, O: Record>(
    products: &mut BTreeMap<(T, O), Weight>,
    t: &T,
    outputs: &[(O, Weight)],
)
    requires { products_at T.cmp t.now products.old.entries ≡ outputs.now }
    ensures { products.new.entries ≡ products_after T.cmp t.now products.old.entries }
{
    for (output, _) in outputs {
        products.remove(&(*t, *output));
    }
}

impl<T: Record, O: Record> Kept<T, O> {
    /// Nothing is kept. It takes no memory.
    pub(crate) fn new(alloc: Global) -> Kept<T, O>
        ensures { result ≡ [] }
    {
        Kept {
            alloc,
            products: BTreeMap::new(alloc),
            span: None,
        }
    }

    /// Takes out the products that wait for a time. It takes time in proportion to their number times the logarithm of
    /// that of all that are kept, and where there is none to that logarithm.
    ///
    /// Errors: out of memory.
    fn release(&mut self, t: &T) -> Result<Vec<(O, Weight)>, NoMemory>
        ensures made { IfOk result (λ made. made.items ≡ products_at T.cmp t.now self.old) }
        ensures rest { OnOk result (self.new ≡ products_after T.cmp t.now self.old) }
        ensures batch { OnOk result (IsBatch (in_turn T.cmp O.cmp) self.new) }
    {
        let mut outputs = Vec::new(self.alloc);
        let Some((low, high)) = self.span else {
            return Ok(outputs);
        };
        let from = Bound::Included((*t, low));
        let to = Bound::Included((*t, high));
        push_outputs(&mut outputs, self.products.range((from, to)))?;
        take_out(&mut self.products, t, outputs.as_slice());
        Ok(outputs)
    }

    /// Keeps a product for its time, with its weight added to that of the same record at the same time. It takes time
    /// in proportion to the logarithm of the number of all that are kept.
    ///
    /// Errors: out of memory.
    fn add(&mut self, product: (T, O), weight: Weight) -> Result<(), NoMemory>
        ensures { OnOk result (self.new ≡ normal (in_turn T.cmp O.cmp) (self.old ++ (product, weight) ∷ [])) }
    {
        add_weight(&mut self.products, product, weight)?;
        self.span = Some(widened(self.span, product.1));
        Ok(())
    }

    /// Keeps a product for its time, or adds its record to those made where its time is `t`.
    ///
    /// Errors: out of memory.
    fn take_in(
        &mut self,
        product: (T, O),
        weight: Weight,
        t: &T,
        made: &mut Vec<(O, Weight)>,
    ) -> Result<(), NoMemory>
        ensures made { OnOk result (made.new.items ≡ made.old.items ++ products_at T.cmp t.now ((product, weight) ∷ [])) }
        ensures rest { OnOk result (self.new ≡ (if is_ne (T.cmp product.0 t.now) then normal (in_turn T.cmp O.cmp) (self.old ++ (product, weight) ∷ []) else self.old)) }
    {
        if product.0.cmp(t).is_ne() {
            return self.add(product, weight);
        }
        made.push((product.1, weight))?;
        Ok(())
    }

    /// Keeps products, each for its time, and adds the records of those of time `t` to those made.
    ///
    /// Errors: out of memory.
    fn take_in_all(
        &mut self,
        products: &[((T, O), Weight)],
        t: &T,
        made: &mut Vec<(O, Weight)>,
    ) -> Result<(), NoMemory>
        requires { IsBatch (in_turn T.cmp O.cmp) self.old }
        ensures made { OnOk result (made.new.items ≡ made.old.items ++ products_at T.cmp t.now products.now) }
        ensures rest { OnOk result (self.new ≡ normal (in_turn T.cmp O.cmp) (self.old ++ products_after T.cmp t.now products.now)) }
    {
        for (product, weight) in products {
            self.take_in(*product, *weight, t, made)?;
        }
        Ok(())
    }

    /// Keeps products, each for its time, and takes out those of one time. It takes time in proportion to the number of
    /// these products and of those that waited for this time, times the logarithm of the number of all that are kept.
    ///
    /// Errors: out of memory.
    pub(crate) fn exchange(
        &mut self,
        products: List<((T, O), Weight)>,
        t: T,
    ) -> Result<Batch<O>, NoMemory>
        ensures made { IfOk result (λ made. Alike made (products_at T.cmp t (self.old ++ products))) }
        ensures rest { OnOk result (Alike self.new (products_after T.cmp t (self.old ++ products))) }
        ensures times { OnOk result ((d : T) → Member d (due_times self.new) → (Member d (due_times self.old) ⊎ Member d (due_times products)) × (d ≢ t)) }
    {
        let mut made = self.release(&t)?;
        self.take_in_all(products.as_slice(), &t, &mut made)?;
        Batch::from_entries(List::from_vec(made))
    }

    /// The least time for which something is kept. It takes no memory.
    pub(crate) fn first(&self) -> Option<T>
        ensures { IsNextDue T.cmp result (due_times self.now) }
    {
        match self.products.first_key_value() {
            Some((product, _)) => Some(product.0),
            None => None,
        }
    }
}
