//! Calls of graphs, costs, planners and certificates that take memory: each answers something else than want of it.

ghost use Rattle.std.specs.Prelude.{IfOk, IsTrue};
ghost use Rattle.arr_ops.specs.Formed.{is_formed};

use arr_cert::Reader;
use arr_cost::Costs;
use arr_deps::Graph;
use arr_greedy::greedy;
use arr_heur::linear;
use arr_io::SureSource;
use arr_law::{Certificate, Charge, Charges, OpList, Places, Record, Records};
use arr_num::{Code, Elem};
use arr_ops::{Op, Operand, list_formed};
use arr_search::search;
use arr_view::View;
use std::alloc::Global;
use std::process::Abort;
use std::test::Fail;

/// One more than each of three numbers of a base, into a new base.
fn one_more(from: u32, to: u32) -> Result<Op, Fail> {
    let read = View::whole(from, &[3]).ok_or("read")?;
    Ok(Op {
        code: Code::Add,
        to: Elem::I64,
        from: Elem::I64,
        out: View::whole(to, &[3]),
        first: Some(Operand::Array(read)),
        second: Some(Operand::Number(1)),
        axis: None,
        slot: None,
        frees: None,
        makes: true,
    })
}

/// Two such, one after the other.
fn two_more(rt: &impl Abort) -> Result<[Op; 2], Fail>
    ensures { IfOk result (λ list. IsTrue (is_formed list)) }
{
    let list = [one_more(0, 1)?, one_more(1, 2)?];
    assert!(rt; list_formed(&list));
    Ok(list)
}

#[test]
fn a_list_is_planned(rt: HostRuntime) -> Result<(), Fail> {
    let list = two_more(&rt)?;
    let graph = Graph::of(rt.alloc(), &list)?;
    let costs = Costs::of(rt.alloc(), &list)?;
    drop(linear(rt.alloc(), &graph)?);
    drop(greedy(rt.alloc(), &graph, &costs)?);
    Ok(())
}

#[test]
fn a_list_is_searched(rt: HostRuntime) -> Result<(), Fail> {
    let list = two_more(&rt)?;
    let graph = Graph::of(rt.alloc(), &list)?;
    let costs = Costs::of(rt.alloc(), &list)?;
    let found = search(rt.alloc(), &graph, &costs, 1, 100)?;
    assert!(rt; found.cost == 72 && found.bound == 72);
    Ok(())
}

#[test]
fn blocks_are_priced(rt: HostRuntime) -> Result<(), Fail> {
    let costs = Costs::of(rt.alloc(), &two_more(&rt)?)?;
    assert!(rt; costs.block_cost(rt.alloc(), &[1])? == 48);
    assert!(rt; costs.saving(rt.alloc(), &[1], &[2])? == 24);
    Ok(())
}

#[test]
fn blocks_read_and_write(rt: HostRuntime) -> Result<(), Fail> {
    let costs = Costs::of(rt.alloc(), &two_more(&rt)?)?;
    drop(costs.reads(rt.alloc(), &[2])?);
    drop(costs.writes(rt.alloc(), &[2])?);
    Ok(())
}

#[test]
fn blocks_are_joined(rt: HostRuntime) -> Result<(), Fail> {
    let costs = Costs::of(rt.alloc(), &two_more(&rt)?)?;
    let first = costs.footprint(rt.alloc(), &[1])?;
    drop(first.joined(rt.alloc(), &first)?);
    Ok(())
}

#[test]
fn a_proof_is_read(rt: HostRuntime) -> Result<(), Fail> {
    let mut proof = SureSource {
        bytes: b"!cost 8\n",
    };
    let mut reader = Reader::new(rt.alloc())?;
    drop(reader.next(rt.alloc(), &mut proof)?);
    Ok(())
}

/// The records of a tree that is a leaf of one group.
fn leaf(alloc: Global) -> Result<Records, Fail> {
    let mut ops = OpList::new(alloc);
    ops.push(1)?;
    let mut charges = Charges::new(alloc);
    charges.push(Charge { operand: 0, ops })?;
    let mut tree = Records::new(alloc);
    tree.push(Record::Worth(charges))?;
    Ok(tree)
}

#[test]
fn a_certificate_is_made_and_copied(rt: HostRuntime) -> Result<(), Fail> {
    let mut places = Places::new(rt.alloc());
    places.push(1)?;
    let certificate = Certificate {
        version: 2,
        number: 1,
        count: 1,
        places,
        cost: 8,
        bound: 8,
        tree: leaf(rt.alloc())?,
    };
    drop(certificate.copied(rt.alloc())?);
    Ok(())
}
