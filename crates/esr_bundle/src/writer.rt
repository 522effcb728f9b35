//! From a problem and a certificate to bytes: the one text that means them. One loop writes a list, whatever its
//! elements are, as one reads it.
ghost use Rattle.std.specs.Prelude.{◌≡◌, IfOk, OnOk, Ok, map, true};
ghost use Rattle.serde_json.specs.Data.{Data, array};
ghost use Rattle.serde_json.specs.View.{view, members_view, items_of};
ghost use Rattle.esr_cert.specs.Views as views;
ghost use Rattle.esr_bundle.specs.Bundle.{number_data, numbers_data, pair_data, chain_data, problem_data, certificate_data, bundle_data, bundle, is_position};
ghost use Rattle.std.specs.List.{list_all};
ghost use Rattle.esr_bundle.specs.Members.{with_list, with_number};
ghost use Rattle.esr_bundle.specs.Reading.{Encodes};

use esr_base::{NoMemory, TxnId};
use esr_cert::{Certificate, Chain, Problem};
use serde_json::{Map, Value, json, put};
use std::alloc::{AllocError, Global};

/// A type that is written as a JSON value.
trait Written {
    ghost model_of: { Self → Data };

    fn tree(&self, alloc: Global) -> Result<Value, AllocError>
        ensures { IfOk result (λ v. view v ≡ model_of self.now) };
}

impl Written for u64 {
    ghost model_of = { number_data };

    fn tree(&self, _alloc: Global) -> Result<Value, AllocError> {
        Ok(Value::from(*self))
    }
}

impl Written for u32 {
    ghost model_of = { number_data };

    fn tree(&self, _alloc: Global) -> Result<Value, AllocError> {
        Ok(Value::from(*self))
    }
}

impl Written for TxnId {
    ghost model_of = { λ t. number_data t.0 };

    fn tree(&self, _alloc: Global) -> Result<Value, AllocError> {
        Ok(Value::from(self.0))
    }
}

impl Written for (u32, u32) {
    ghost model_of = { pair_data };

    fn tree(&self, alloc: Global) -> Result<Value, AllocError> {
        json!(in alloc; [self.0, self.1])
    }
}

impl Written for Vec<u64> {
    ghost model_of = { λ row. numbers_data row.items };

    fn tree(&self, alloc: Global) -> Result<Value, AllocError> {
        list_tree(alloc, self)
    }
}

impl Written for Chain {
    ghost model_of = { λ chain. chain_data (views.chain_view chain) };

    fn tree(&self, alloc: Global) -> Result<Value, AllocError> {
        let costs = list_tree(alloc, &self.costs)?;
        let writers = list_tree(alloc, &self.writers)?;
        json!(in alloc; {"costs": costs, "item": self.item.0, "writers": writers})
    }
}

/// Returns the JSON value of a list.
fn list_tree<T: Written>(alloc: Global, list: &[T]) -> Result<Value, AllocError>
    ensures { IfOk result (λ v. view v ≡ array (items_of (map T.model_of list.now))) }
{
    let mut items = Vec::with_capacity(alloc, list.len())?;
    for one in list {
        items.push(one.tree(alloc)?)?;
    }
    Ok(Value::Array(items))
}

/// Inserts the list at the key, unless it is empty.
fn put_list<T: Written>(
    members: &mut Map<String, Value>,
    alloc: Global,
    key: &str,
    these: &[T],
) -> Result<(), AllocError>
    ensures { OnOk result (members_view members.new.entries
        ≡ with_list key.now (map T.model_of these.now) (members_view members.old.entries)) }
{
    if these.is_empty() {
        return Ok(());
    }
    put(members, alloc, key, list_tree(alloc, these)?)
}

/// Inserts the number at the key, if there is one.
fn put_number(
    members: &mut Map<String, Value>,
    alloc: Global,
    key: &str,
    number: Option<u64>,
) -> Result<(), AllocError>
    ensures { OnOk result (members_view members.new.entries
        ≡ with_number key.now number (members_view members.old.entries)) }
{
    match number {
        Some(number) => put(members, alloc, key, Value::from(number)),
        None => Ok(()),
    }
}

fn problem(alloc: Global, problem: &Problem) -> Result<Value, AllocError>
    ensures { IfOk result (λ v. view v ≡ problem_data problem.now) }
{
    let mut members = Map::new(alloc);
    put(
        &mut members,
        alloc,
        "before",
        list_tree(alloc, problem.before())?,
    )?;
    put(
        &mut members,
        alloc,
        "chains",
        list_tree(alloc, problem.chains())?,
    )?;
    put_list(&mut members, alloc, "must", problem.must())?;
    put(
        &mut members,
        alloc,
        "updates",
        list_tree(alloc, problem.updates())?,
    )?;
    Ok(Value::Object(members))
}

fn certificate(alloc: Global, certificate: &Certificate) -> Result<Value, AllocError>
    ensures { IfOk result (λ v. view v ≡ certificate_data (views.certificate_of certificate.now)) }
{
    let mut members = Map::new(alloc);
    put_number(
        &mut members,
        alloc,
        "augmentations",
        certificate.augmentations,
    )?;
    put(
        &mut members,
        alloc,
        "back_flow",
        list_tree(alloc, &certificate.back_flow)?,
    )?;
    put(
        &mut members,
        alloc,
        "chain_flow",
        list_tree(alloc, &certificate.chain_flow)?,
    )?;
    put_list(&mut members, alloc, "must_flow", &certificate.must_flow)?;
    put(
        &mut members,
        alloc,
        "set",
        list_tree(alloc, &certificate.set)?,
    )?;
    put(&mut members, alloc, "worth", Value::from(certificate.worth))?;
    Ok(Value::Object(members))
}

/// Returns the list unchanged; its numbers of 32 bits are positions.
fn as_positions(list: &[u32]) -> &[u32]
    ensures list { result.now ≡ list.now }
    ensures fits { list_all is_position list.now ≡ true }
{
    list
}

/// Returns the JSON value of a bundle.
fn tree(alloc: Global, model_of: &Problem, by: &Certificate) -> Result<Value, AllocError>
    ensures { IfOk result (λ v. view v ≡ bundle_data model_of.now (views.certificate_of by.now)) }
{
    let certificate = certificate(alloc, by)?;
    let problem = problem(alloc, model_of)?;
    json!(in alloc; {"certificate": certificate, "problem": problem})
}

/// Returns the bundle of a problem and a certificate: one JSON object without spaces, its keys ascending.
pub fn to_json(
    alloc: Global,
    problem: &Problem,
    certificate: &Certificate,
) -> Result<Vec<u8>, NoMemory>
    ensures text { IfOk result (λ v. v.items ≡ bundle problem.now (views.certificate_of certificate.now)) }
    ensures encodes { IfOk result (λ v. Encodes v.items (Ok (problem.now, views.certificate_of certificate.now))) }
{
    let _sound = problem.updates(); // brings the invariant into the proof
    let _fits = as_positions(&certificate.set); // and that the set has numbers of 32 bits
    let tree = tree(alloc, problem, certificate)?;
    Ok(tree.to_vec(alloc)?)
}
