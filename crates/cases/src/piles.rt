// Layers over layers.
use crate::quads::quad;
use stabbing::both::Both;
use stabbing::exact::Exact;
use stabbing::memory::Memory;
use stabbing::stabber::{Sharp, Stabber};
use stabbing::wedge::Wedge;

// The line that is held.
fn held<S>(memory: &Memory<S>) -> Option<(i32, i32, i32)> {
    memory.held.map(|line| line.numbers())
}

// Two doorways of a corridor have the line along their left posts; it serves the first alone, where Exact has another.
#[test]
fn memory_recalls(rt: HostRuntime) {
    let path = [quad(4, 7, 4, 5), quad(8, 7, 8, 5)];
    let mut memory = Memory::new(Exact {});
    assert_eq!(rt; held(&memory), None);
    assert_eq!(rt; memory.stabbing_line(&path), Some((0, 4, -28)));
    assert_eq!(rt; held(&memory), Some((0, 4, -28)));
    assert_eq!(rt; memory.stabbing_line(&path[0..1]), Some((0, 4, -28)));
    assert_eq!(rt; Exact {}.stabbing_line(&path[0..1]), Some((2, 0, -8)));
    assert!(rt; !memory.lets_through(&[quad(4, 7, 4, 7)]));
    assert_eq!(rt; held(&memory), Some((0, 4, -28)));
    assert!(rt; memory.lets_through(&[quad(1, 4, 3, 4)]));
    assert_eq!(rt; held(&memory), Some((0, 2, -8)));
}

// What the front refuses never reaches the back.
#[test]
fn both_asks_its_back_last(rt: HostRuntime) {
    let turn = [quad(1, 4, 3, 4), quad(4, 7, 4, 5), quad(7, 4, 5, 4)];
    let mess = [
        quad(17, 8, 19, 8),
        quad(20, 11, 20, 9),
        quad(24, 11, 24, 9),
        quad(28, 11, 28, 9),
        quad(29, 12, 31, 12),
    ];
    let mut both = Both {
        front: Wedge {},
        back: Memory::new(Exact {}),
    };
    assert_eq!(rt; both.stabbing_line(&turn[0..2]), Some((-3, 3, -9)));
    assert_eq!(rt; both.stabbing_line(&turn), None);
    assert_eq!(rt; held(&both.back), Some((-3, 3, -9)));
    assert_eq!(rt; both.stabbing_line(&mess), None);
    assert!(rt; both.lets_through(&mess[1..4]));
    assert_eq!(rt; held(&both.back), Some((0, 4, -44)));
}

// A memory over a memory, and one over both: the upper answers first, and both hold what was found.
#[test]
fn memories_over_memories(rt: HostRuntime) {
    let path = [quad(4, 7, 4, 5), quad(8, 7, 8, 5)];
    let mut twice = Memory::new(Memory::new(Exact {}));
    assert_eq!(rt; twice.stabbing_line(&path), Some((0, 4, -28)));
    assert_eq!(rt; held(&twice), Some((0, 4, -28)));
    assert_eq!(rt; held(&twice.below), Some((0, 4, -28)));
    let mut over = Memory::new(Both {
        front: Wedge {},
        back: Exact {},
    });
    assert!(rt; over.lets_through(&path));
    assert_eq!(rt; over.stabbing_line(&path[1..2]), Some((0, 4, -28)));
}
