// Exact and Wedge on small paths.
use crate::quads::quad;
use stabbing::exact::Exact;
use stabbing::stabber::{Sharp, Stabber};
use stabbing::wedge::Wedge;

// The right posts (0, 0) and (4, 0) with the left post (2, 0) between them leave only the line through all three.
#[test]
fn only_through_posts(rt: HostRuntime) {
    let path = [quad(0, 2, 0, 0), quad(2, 0, 2, -2), quad(4, 2, 4, 0)];
    assert_eq!(rt; Exact {}.stabbing_line(&path), Some((0, 2, 0)));
}

// (0, 0) is the right post of one crossing and the left post of the next, so the line goes through it.
#[test]
fn post_of_two_crossings(rt: HostRuntime) {
    let path = [quad(0, 2, 0, 0), quad(0, 0, 2, 0)];
    assert_eq!(rt; Exact {}.stabbing_line(&path), Some((-2, 0, 0)));
}

#[test]
fn all_on_one_line(rt: HostRuntime) {
    let path = [quad(0, 0, 1, 0), quad(3, 0, 2, 0)];
    assert_eq!(rt; Exact {}.stabbing_line(&path), Some((0, 1, 0)));
}

// A doorway there and back leaves only the line along its wall, which the third crossing does not allow.
#[test]
fn no_line(rt: HostRuntime) {
    let path = [quad(0, 0, 0, 1), quad(0, 1, 0, 0), quad(1, 0, 1, 1)];
    assert_eq!(rt; Exact {}.stabbing_line(&path), None);
    assert!(rt; !Exact {}.lets_through(&path));
    assert!(rt; !Wedge {}.lets_through(&path));
    assert!(rt; Exact {}.lets_through(&path[0..2]));
}

// Through the mess and out at its far end: each three doorways have a line, the five have none.
#[test]
fn wedge_is_wider(rt: HostRuntime) {
    let path = [
        quad(17, 8, 19, 8),
        quad(20, 11, 20, 9),
        quad(24, 11, 24, 9),
        quad(28, 11, 28, 9),
        quad(29, 12, 31, 12),
    ];
    assert!(rt; Wedge {}.lets_through(&path));
    assert!(rt; !Exact {}.lets_through(&path));
}

// The empty path has (0, 1, 0); a list that is no path gets no.
#[test]
fn paths_and_no_paths(rt: HostRuntime) {
    assert_eq!(rt; Exact {}.stabbing_line(&[]), Some((0, 1, 0)));
    assert!(rt; Wedge {}.lets_through(&[]));
    assert!(rt; !Exact {}.lets_through(&[quad(10_001, 0, 0, 0)]));
    assert!(rt; !Wedge {}.lets_through(&[quad(0, 0, 0, -10_001)]));
    assert!(rt; !Exact {}.lets_through(&[quad(5, 5, 5, 5)]));
}

// The same doorway again and again: 511 times is a path, 512 times is none.
#[test]
fn longest_path(rt: HostRuntime) {
    let list = [quad(0, 1, 0, 0); 512];
    assert_eq!(rt; Exact {}.stabbing_line(&list[0..511]), Some((1, 0, 0)));
    assert_eq!(rt; Exact {}.stabbing_line(&list), None);
    assert!(rt; Wedge {}.lets_through(&list[0..511]));
    assert!(rt; !Wedge {}.lets_through(&list));
}
