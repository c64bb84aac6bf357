// The facts of refusal 2, each broken alone in an image that passes, and sessions with no history that must pass. Each line that is
// written has a case's number and what the image is answered with.
#![tactic(auto)]

use valid::session::{image_valid, open};

// Changes of the session below: bytes of its image, each with its place. Cases 1 to 62 are refused, the others pass.
const CASES: [&[(usize, u8)]; 76] = [
    // 1 version 2
    &[(0, 2)],
    // 2 version 4
    &[(0, 4)],
    // 3 a byte of the head that is not used
    &[(15, 1)],
    // 4 65 nodes
    &[(1, 65)],
    // 5 65 operations
    &[(2, 65)],
    // 6 65 results
    &[(3, 65)],
    // 7 node keys out of order
    &[(20, 2), (36, 1)],
    // 8 a node key twice
    &[(36, 1)],
    // 9 a link to 65
    &[(22, 65)],
    // 10 a link to 0
    &[(22, 0)],
    // 11 nine links
    &[(21, 9)],
    // 12 a link place that is not used
    &[(24, 1)],
    // 13 a node's last byte
    &[(31, 1)],
    // 14 a node record that is not used
    &[(48, 1)],
    // 15 a station above the node count
    &[(1104, 3)],
    // 16 station 0
    &[(1040, 0)],
    // 17 station 66
    &[(1136, 66)],
    // 18 stations that fall
    &[(1040, 2)],
    // 19 a first operation that opens no unit
    &[(1041, 0)],
    // 20 a station's first operation that opens no unit
    &[(1105, 0)],
    // 21 a waiting call that opens no unit
    &[(1137, 0)],
    // 22 opens 2
    &[(1073, 2)],
    // 23 an add at a station
    &[(1074, 0), (1084, 0), (1085, 0)],
    // 24 kind 8
    &[(1074, 8)],
    // 25 operand key 65
    &[(1107, 65)],
    // 26 near with no key
    &[(1107, 0)],
    // 27 a sum with an operand key
    &[(1075, 1)],
    // 28 a sum with an a
    &[(1076, 1)],
    // 29 an add with an a
    &[(1140, 1)],
    // 30 an unlink with an a
    &[(1106, 3), (1108, 1)],
    // 31 targets that do not rise
    &[(1053, 2)],
    // 32 targets that fall
    &[(1053, 3)],
    // 33 target 65
    &[(1054, 65)],
    // 34 target 0
    &[(1053, 0)],
    // 35 nine targets
    &[(1052, 9)],
    // 36 a target place that is not used
    &[(1055, 3)],
    // 37 an add with a target
    &[(1148, 1), (1149, 1)],
    // 38 a mark without all
    &[(1071, 1)],
    // 39 an all-call that lists targets
    &[(1070, 1)],
    // 40 all 2
    &[(1134, 2)],
    // 41 mark 2
    &[(1134, 1), (1135, 2)],
    // 42 an add for all
    &[(1166, 1)],
    // 43 a mark in the top stream
    &[(1138, 4), (1166, 1), (1167, 1)],
    // 44 an operation record that is not used
    &[(1168, 1)],
    // 45 no label
    &[(1093, 0), (1094, 0)],
    // 46 a sum with two labels
    &[(1093, 2), (1096, 9)],
    // 47 an add with two labels
    &[(1157, 2), (1160, 9)],
    // 48 five labels
    &[(1061, 5)],
    // 49 a label place that is not used
    &[(1066, 4)],
    // 50 label 0
    &[(1094, 0)],
    // 51 a label above the last given
    &[(4, 7)],
    // 52 a label in two operations
    &[(1094, 3)],
    // 53 a label twice in one operation
    &[(1064, 3)],
    // 54 a label in an operation and a result
    &[(3088, 2)],
    // 55 results out of label order
    &[(3088, 7), (3104, 1)],
    // 56 two results of one label
    &[(3104, 1)],
    // 57 a result of label 0
    &[(3088, 0)],
    // 58 a left key 65
    &[(3111, 65)],
    // 59 left keys that do not rise
    &[(3110, 2), (3112, 9)],
    // 60 a left place that is not used
    &[(3112, 1)],
    // 61 a result's last byte
    &[(3103, 1)],
    // 62 a result record that is not used
    &[(3120, 1)],
    // 63 the session
    &[(16, 7)],
    // 64 a target that was passed already
    &[(1085, 1)],
    // 65 a top stream in any label order
    &[(1136, 65), (1158, 4)],
    // 66 a map that waits with two labels
    &[(1158, 9)],
    // 67 a value held at a start
    &[(1080, 255)],
    // 68 an unlink that removed a copy
    &[(1106, 3)],
    // 69 an unlink's count above what lists hold
    &[(1106, 3), (1112, 255), (1115, 255)],
    // 70 a linked key that no node has
    &[(22, 64), (23, 64)],
    // 71 a last label far above
    &[(5, 255)],
    // 72 two units at one station
    &[(1073, 1)],
    // 73 a map with b alone
    &[(1044, 0), (1048, 255)],
    // 74 a near for all
    &[(1134, 1)],
    // 75 a near for all, done at its station
    &[(1134, 1), (1135, 1)],
    // 76 a sum for all that waits
    &[(1138, 4), (1166, 1)],
];

// The session below, byte by byte: nodes 1 and 2; at station 1 a unit of a map with two labels and a sum, at station 2 a near; an
// add waits; two results. Every other byte is the opened image's.
const SESSION: [(usize, u8); 47] = [
    // the head: two nodes, four operations, two results, last label 9
    (1, 2),
    (2, 4),
    (3, 2),
    (4, 9),
    // node 1: value 7, links 2, 2; node 2: value 5
    (16, 7),
    (20, 1),
    (21, 2),
    (22, 2),
    (23, 2),
    (32, 5),
    (36, 2),
    // map 3, 4 to 1, 2, labels 3 and 2
    (1040, 1),
    (1041, 1),
    (1042, 1),
    (1044, 3),
    (1048, 4),
    (1052, 2),
    (1053, 1),
    (1054, 2),
    (1061, 2),
    (1062, 3),
    (1064, 2),
    // a sum that holds 10, to 9, label 5
    (1072, 1),
    (1074, 4),
    (1080, 10),
    (1084, 1),
    (1085, 9),
    (1093, 1),
    (1094, 5),
    // near key 2 that holds 1, label 6
    (1104, 2),
    (1105, 1),
    (1106, 7),
    (1107, 2),
    (1112, 1),
    (1125, 1),
    (1126, 6),
    // an add of 7 in the top stream, label 8
    (1136, 65),
    (1137, 1),
    (1144, 7),
    (1157, 1),
    (1158, 8),
    // label 1 gave 1; label 7 gave 54 and left 9
    (3088, 1),
    (3090, 1),
    (3104, 7),
    (3106, 54),
    (3110, 1),
    (3111, 9),
];

fn opened() -> [u8; 4112] {
    let mut image = [0; 4112];
    open(&mut image);
    image
}

fn change(image: &mut [u8], changes: &[(usize, u8)]) {
    for &(at, value) in changes {
        if at < image.len() {
            image[at] = value;
        }
    }
}

fn case(changes: &[(usize, u8)]) -> [u8; 4112] {
    let mut image = opened();
    change(&mut image, &SESSION);
    change(&mut image, changes);
    image
}

fn put_keys(image: &mut [u8; 4112], count: u8) {
    for (node, key) in image[16..1040].chunks_exact_mut(16).zip(1..=count) {
        node[4] = key;
    }
}

// A map that waits, with four labels.
fn waiting_map(first_label: u16) -> [u8; 32] {
    let mut map = [0; 32];
    map[0] = 65;
    map[1] = 1;
    map[2] = 1;
    map[21] = 4;
    for (place, label) in map[22..30].chunks_exact_mut(2).zip(first_label..) {
        place.copy_from_slice(&label.to_le_bytes());
    }
    map
}

fn crowd(maps: u8) -> [u8; 4112] {
    let mut image = opened();
    image[2] = maps;
    image[4] = 255;
    for (map, number) in image[1040..3088].chunks_exact_mut(32).zip(0..maps) {
        map.copy_from_slice(&waiting_map(4 * u16::from(number) + 1));
    }
    image
}

// Nodes alone, no label given yet.
fn crowd_of_nodes(nodes: u8) -> [u8; 4112] {
    let mut image = opened();
    image[1] = nodes;
    put_keys(&mut image, nodes);
    image
}

// Nodes, and an add that waits.
fn nodes_and_add(nodes: u8) -> [u8; 4112] {
    let mut image = crowd_of_nodes(nodes);
    image[2] = 1;
    image[4] = 1;
    image[1040] = 65;
    image[1041] = 1;
    image[1061] = 1;
    image[1062] = 1;
    image
}

// A write that fails is passed over.
fn tell(rt: &impl Print, number: usize, image: &[u8]) {
    let answer = if image_valid(image) { "passes" } else { "2" };
    let _ = println!(rt; "{number} {answer}");
}

fn main(rt: HostRuntime) {
    for (i, changes) in CASES.iter().enumerate() {
        tell(&rt, i + 1, &case(changes));
    }
    // 68 and 64 live labels
    tell(&rt, 77, &crowd(17));
    tell(&rt, 78, &crowd(16));
    // no operation, and a last label of 255
    tell(&rt, 79, &crowd(0));
    // 65 and 64 nodes and waiting adds
    tell(&rt, 80, &nodes_and_add(64));
    tell(&rt, 81, &nodes_and_add(63));
    tell(&rt, 82, &crowd_of_nodes(64));
}
