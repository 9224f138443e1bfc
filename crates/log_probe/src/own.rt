//! The owners of logs.
use arrayvec::ArrayVec;
use hex::FromHex;
use stable_record::Identity;
use std::alloc::Global;

/// The first of three members with equal weights.
pub fn same_weights() -> Identity {
    let mut weights = ArrayVec::new();
    for _member in 0..3 {
        let _added = weights.try_push(1);
    }
    Identity {
        tree: [7; 32],
        weights,
        me: 0,
    }
}

/// The member that these arguments describe: the tree's digest and the weights in hexadecimal, and
/// the member's number.
pub fn owner(alloc: Global, tree: &str, weights: &str, me: &str) -> Option<Identity> {
    let tree = <[u8; 32] as FromHex>::from_hex(tree).ok()?;
    let weights = weights_of(alloc, weights)?;
    let me: u8 = me.parse().ok()?;
    Some(Identity { tree, weights, me })
}

fn weights_of(alloc: Global, text: &str) -> Option<ArrayVec<u8, 9>> {
    let bytes = hex::decode(alloc, text).ok()?;
    ArrayVec::try_from(bytes.as_slice()).ok()
}
