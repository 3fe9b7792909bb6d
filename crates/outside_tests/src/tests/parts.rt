// Calls that no run of the program makes, with answers that were worked out by hand.

ghost use Rattle.std.specs.Prelude.{◌≡◌};

use copy_state::FaultCopy;
use expr_sizes::size_expr;
use four_value::Vec4;
use net_graph::Graph;
use soak_text::{design_text, plan_text};
use std::test::Fail;
use top_call::read_design;
use tree_copies::copy_tree;
use v_elab::Mode;
use v_names::Scope;
use v_parse::parse;
use v_ports::{PortFault, PortUse, join_ports};
use v_scan::scan;
use v_tree::{Expr, NumberForm};
use v_width::SizedExpr;
use vf_base::{FaultId, NodeId, ObjectId, Place};
use window_index::{Occurrence, WindowIndex};

/// Number 0 at 3 and 9, number 2 at 1, 3 and 3, number 1 never.
static FIRST: [Occurrence; 5] = [
    Occurrence {
        number: 2,
        moment: 1,
    },
    Occurrence {
        number: 2,
        moment: 3,
    },
    Occurrence {
        number: 0,
        moment: 3,
    },
    Occurrence {
        number: 2,
        moment: 3,
    },
    Occurrence {
        number: 0,
        moment: 9,
    },
];

/// Number 1 alone.
static SECOND: [Occurrence; 1] = [Occurrence {
    number: 1,
    moment: 0,
}];

#[test]
fn moments_of_a_window(rt: HostRuntime) -> Result<(), Fail> {
    let mut index = WindowIndex::build(rt.alloc(), 3, &FIRST)?;
    assert_eq!(rt; index.moments(0), [3, 9].as_slice());
    assert!(rt; index.moments(1).is_empty());
    assert_eq!(rt; index.moments(2), [1, 3, 3].as_slice());
    assert_eq!(rt; index.first_at_or_after(0, 4), Some(9));
    assert_eq!(rt; index.first_at_or_after(0, 9), Some(9));
    assert_eq!(rt; index.first_at_or_after(0, 10), None);
    assert_eq!(rt; index.first_at_or_after(1, 0), None);
    assert_eq!(rt; index.last_before(2, 3), Some(0));
    assert_eq!(rt; index.last_before(2, 4), Some(2));
    assert_eq!(rt; index.last_before(2, 1), None);
    index.refill(&SECOND)?;
    assert!(rt; index.moments(0).is_empty());
    assert_eq!(rt; index.moments(1), [0].as_slice());
    index.refill(&FIRST)?;
    assert_eq!(rt; index.moments(2), [1, 3, 3].as_slice());
    Ok(())
}

#[test]
fn values_of_a_copy_come_and_go(rt: HostRuntime) -> Result<(), Fail> {
    let mut copy = FaultCopy::new(rt.alloc(), FaultId(7));
    let good = Vec4::from_number(5, 4);
    let own = Vec4::from_number(9, 4);
    assert_eq!(rt; copy.fault(), FaultId(7));
    copy.set(ObjectId(3), good, own)?;
    copy.set(ObjectId(1), good, own)?;
    copy.set(ObjectId(2), good, good)?;
    assert_eq!(rt; copy.size(), 2);
    assert!(rt; copy.value(ObjectId(3), good).same(own));
    assert!(rt; copy.value(ObjectId(2), good).same(good));
    copy.set(ObjectId(3), good, good)?;
    assert_eq!(rt; copy.size(), 1);
    assert!(rt; copy.value(ObjectId(3), good).same(good));
    assert!(rt; copy.value(ObjectId(1), good).same(own));
    Ok(())
}

/// A module with each kind of part that a copy of a tree goes through.
const MODULE: &[u8] =
    b"module m #(parameter W = 4) (input [W-1:0] b, output reg c); wire a = {~b[0], &b};\n\
    n #(3) i(.p(a), .q()); nand g(d, a, b[1]); assign e = a ? b[2:1] : 2'b1x;\n\
    initial begin c = 0; #5 c <= #2 ~c; wait (a) @(posedge a or b) c = 1; repeat (2) ; end\n\
    always @(posedge a) case (b) 0, 1: c = a; default: if (a) ; else for (c = 0; c; c = a) $finish; endcase\n\
    endmodule\n";

#[test]
fn a_tree_is_copied(rt: HostRuntime) -> Result<(), Fail> {
    let tokens = scan(rt.alloc(), MODULE)?;
    let unit = parse(rt.alloc(), &tokens)?;
    let copy = copy_tree(rt.alloc(), &unit)?;
    assert_eq!(rt; copy.modules.as_slice().len(), 1);
    Ok(())
}

/// A sum of a text's bytes in which their places count.
fn sum_of(text: &[u8]) -> u32 {
    let mut sum: u32 = 0;
    for byte in text {
        sum = sum.wrapping_mul(31).wrapping_add(u32::from(*byte));
    }
    sum
}

/// The generated design of two stages.
const TWO_STAGES: &[u8] =
    b"module top;\nreg clk = 0;\nalways #5 clk = ~clk;\nreg r0 = 0;\nreg r1 = 0;\nwire w0;\nnor g0(w0, r1, r0);\nalways @(posedge clk) r0 <= w0;\nwire w1;\nand g1(w1, r0, r0);\nalways @(posedge clk) r1 <= w1;\nendmodule\n";

/// The plan that watches all registers but the first.
const ALL_BUT_ONE: &[u8] =
    b"end 320\nwatch r1\nwatch r2\nwatch r3\nwatch r4\nwatch r5\nwatch r6\nwatch r7\nwatch r8\nstrobe 8 10 318\nfaults all\n";

// Of the texts that are generated a run shows no more than the totals. The expected ones are an independent model's.
#[test]
fn generated_texts(rt: HostRuntime) -> Result<(), Fail> {
    let alloc = rt.alloc();
    let text = design_text(alloc, 5, 2)?;
    assert_eq!(rt; text.as_slice(), TWO_STAGES);
    let plan = plan_text(alloc, 9)?;
    assert_eq!(rt; plan.as_slice(), ALL_BUT_ONE);
    for (number, size, length, sum) in [
        (7, 1, 130, 3_937_806_472),
        (5, 64, 5163, 19_316_268),
        (4_294_967_295, 3, 277, 746_564_575),
        (4_294_967_295, 4000, 379_821, 4_183_171_326),
    ] {
        assert!(rt; size >= 1);
        assert!(rt; size <= 4000);
        let text = design_text(alloc, number, size)?;
        assert_eq!(rt; (text.len(), sum_of(&text)), (length, sum), "size {size}");
    }
    for (size, length, sum) in [
        (1, 44, 811_240_273),
        (8, 107, 925_045_940),
        (64, 115, 3_809_307_360),
        (4000, 131, 2_444_800_252),
    ] {
        assert!(rt; size >= 1);
        assert!(rt; size <= 4000);
        let plan = plan_text(alloc, size)?;
        assert_eq!(rt; (plan.len(), sum_of(&plan)), (length, sum), "size {size}");
    }
    Ok(())
}

/// Where the only part of a text stands.
const HERE: Place = Place { line: 1, column: 7 };

/// A port that is joined into an object, or into nothing.
fn port(formal: u32, actual: Option<u32>) -> PortUse
    ensures { result.formal ≡ formal }
{
    PortUse {
        formal,
        actual,
        place: HERE,
    }
}

#[test]
fn ports_are_joined(rt: HostRuntime) -> Result<(), Fail> {
    let chain = [port(2, Some(1)), port(3, None), port(1, Some(0))];
    let joined = join_ports(rt.alloc(), 4, &chain)?;
    assert_eq!(rt; joined.as_slice(), [0, 0, 0, 3].as_slice());
    let twice = [port(1, None), port(1, Some(0))];
    let fault = join_ports(rt.alloc(), 2, &twice).err();
    assert_eq!(rt; fault, Some(PortFault::PortMismatch(HERE)));
    Ok(())
}

#[test]
fn a_number_takes_the_size_of_its_context(rt: HostRuntime) -> Result<(), Fail> {
    let five = Expr::Number {
        place: HERE,
        form: NumberForm::Plain,
        value: Vec4::from_number(5, 32),
    };
    let scope = Scope::new(rt.alloc());
    let sized = size_expr(rt.alloc(), &five, &scope, 40, true)?;
    assert!(rt; matches!(&sized, SizedExpr::Constant { size, .. } if size.width == 40));
    Ok(())
}

/// Two gates of which the second one reads the first; no path leads from `d`.
const TWO_GATES: &[u8] =
    b"module top; reg a, b, c, d; wire y, z; or h(z, y, c); and g(y, a, b); endmodule\n";

#[test]
fn cones_and_ranks_of_two_gates(rt: HostRuntime) -> Result<(), Fail> {
    let alloc = rt.alloc();
    let design = read_design(alloc, TWO_GATES, b"top", Mode::Usual)?;
    assert_eq!(rt; design.objects.as_slice().len(), 6);
    assert_eq!(rt; design.nodes.as_slice().len(), 2);
    let graph = Graph::new(alloc, &design)?;
    let of_first = graph.sources(alloc, ObjectId(4))?;
    assert_eq!(rt; of_first.as_slice(), [ObjectId(0), ObjectId(1)].as_slice());
    let of_second = graph.sources(alloc, ObjectId(5))?;
    assert_eq!(rt;
        of_second.as_slice(),
        [ObjectId(0), ObjectId(1), ObjectId(2)].as_slice()
    );
    assert_eq!(rt; graph.rank(NodeId(0)), 0);
    assert_eq!(rt; graph.rank(NodeId(1)), 1);
    Ok(())
}
