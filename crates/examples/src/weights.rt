//! Weights at their limits.
ghost use Rattle.std.specs.Prelude.{◌≤◌, unsigned_abs};
ghost use Rattle.scale.specs.Makes.{whole};
ghost use Rattle.scale.specs.Sums.{Light, most_reach};

use super::tests::arc_net;
use arcs::ArcNet;
use net::{Marking, Net};
use rules::Failure;
use scale::{Pair, Pairs, Residues, Scale, Weights, Whole};
use std::alloc::Global;
use std::test::Fail;
use weighing::WeighedNet;

/// 96 full places; cue 0 takes 255 from the first and gives 255 to the last, cue 1 gives 1 to the first.
pub fn full_net(heap: Global) -> Result<ArcNet, Failure> {
    let arcs = [(0, 0, 255, 0), (0, 95, 0, 255), (1, 0, 0, 1)];
    arc_net(heap, &[65535; 96], &arcs)
}

/// The same weight on every place.
fn everywhere(weight: i64) -> [i64; 96]
    requires { unsigned_abs weight ≤ most_reach }
    ensures { Light whole result }
{
    [weight; 96]
}

/// A net with weights on its first places.
fn weighed<'a, S: Scale>(
    scale: &'a S,
    net: &'a ArcNet,
    list: &'a [S::Weight],
) -> WeighedNet<'a, S, ArcNet>
    requires { Light (S.Scale.group scale.now) list.now }
{
    WeighedNet {
        net,
        weights: Weights::new(scale, list),
    }
}

#[test]
fn whole_weights_at_the_extremes(rt: HostRuntime) -> Result<(), Fail> {
    let net = full_net(rt.alloc())?;
    let start = Marking::start(&net);
    assert_eq!(rt;
        weighed(&Whole, &net, &everywhere(-32768)).weigh_marking(&start),
        -206155284480
    );
    assert_eq!(rt;
        weighed(&Whole, &net, &everywhere(32767)).weigh_marking(&start),
        206148993120
    );
    assert_eq!(rt; weighed(&Whole, &net, &[]).weigh_marking(&start), 0);
    assert_eq!(rt; weighed(&Whole, &net, &[-32768]).weigh_column(0), 8355840);
    assert_eq!(rt; weighed(&Whole, &net, &[-32768]).lowest_falling(), Some(1));
    assert_eq!(rt; weighed(&Whole, &net, &[32767]).lowest_falling(), Some(0));
    assert_eq!(rt; weighed(&Whole, &net, &[0, 5]).lowest_unbalanced(), None);
    Ok(())
}

#[test]
fn residues_at_the_ends(rt: HostRuntime) -> Result<(), Fail> {
    let net = full_net(rt.alloc())?;
    let start = Marking::start(&net);
    assert!(rt; Residues::new(0).is_none() && Residues::new(1).is_none());
    let Some(two) = Residues::new(2) else {
        return Err(Fail::new("2 is a modulus"));
    };
    assert_eq!(rt; two.reduce(-1), 1);
    assert_eq!(rt; two.reduce(-1099511627776), 0);
    let Some(most) = Residues::new(65535) else {
        return Err(Fail::new("65535 is a modulus"));
    };
    assert_eq!(rt; most.reduce(-1), 65534);
    assert_eq!(rt; most.reduce(65535), 0);
    assert_eq!(rt; most.sum(65534, 65534), 65533);
    assert_eq!(rt; most.opposite(1), 65534);
    assert_eq!(rt; most.multiple(65535, 65534), 0);
    assert_eq!(rt; weighed(&most, &net, &[]).weigh_marking(&start), 0);
    Ok(())
}

#[test]
fn pairs_are_ordered_part_by_part(rt: HostRuntime) -> Result<(), Fail> {
    let net = full_net(rt.alloc())?;
    let light = [Pair { left: 1, right: 0 }];
    assert_eq!(rt;
        weighed(&Pairs, &net, &light).weigh_column(1),
        Pair { left: 1, right: 0 }
    );
    assert_eq!(rt; weighed(&Pairs, &net, &light).lowest_falling(), Some(0));
    assert_eq!(rt; weighed(&Pairs, &net, &[]).lowest_falling(), None);
    Ok(())
}
