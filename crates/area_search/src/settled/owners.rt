// The point of each face, the first point outside, and two points in one face.
ghost use Rattle.std.specs.Prelude.{◌≡◌, ℕ, ◌+◌, ◌^◌, ◌<◌, ◌≤◌, IfOk, length, slice_index};
ghost use Rattle.area_search.specs.Settled.Owners.{AreOwners, AreShared};
ghost use Rattle.area_search.specs.Settled.PointFaces.{IsFirstOutside};

use ports::Memory;
use std::alloc::Global;

/// Two points in one face, the lesser number first.
#[derive(Clone, Copy, Debug, PartialEq, Eq)]
pub(crate) struct Shared {
    pub first: u32,
    pub second: u32,
}

/// For each face one more than the first point in it, 0 where it has none; and the least two points
/// that share a face, by the first one and then by the second.
#[derive(Drop)]
pub(crate) struct Owners {
    pub of_face: Vec<u32>,
    pub shared: Option<Shared>,
}

/// The owners of `count` faces, where `faces` has the face of each point. It takes time linear in
/// the points and the faces, and 4 bytes a face.
pub(crate) fn owners_of(alloc: Global, faces: &[u32], count: u32) -> Result<Owners, Memory>
    requires few { length faces.now < 2 ^ 30 }
    requires known { (j : ℕ) → j < length faces.now → slice_index faces.now j < count }
    ensures size { IfOk result (λ o. length o.of_face.items ≡ count) }
    ensures owners { IfOk result (λ o. AreOwners faces.now (length faces.now) o.of_face.items) }
    ensures shared { IfOk result (λ o. AreShared faces.now (length faces.now) o.shared) }
{
    let mut owners = Owners {
        of_face: vec![in alloc; 0u32; count as usize]?,
        shared: None,
    };
    for point in 0..faces.len() {
        add_point(&mut owners, faces, point);
    }
    Ok(owners)
}

// One point more.
fn add_point(owners: &mut Owners, faces: &[u32], point: usize)
    requires few { length faces.now < 2 ^ 30 }
    requires there { point < length faces.now }
    requires known { slice_index faces.now point < length owners.old.of_face.items }
    requires owners { AreOwners faces.now point owners.old.of_face.items }
    requires shared { AreShared faces.now point owners.old.shared }
    ensures size { length owners.new.of_face.items ≡ length owners.old.of_face.items }
    ensures owners { AreOwners faces.now (point + 1) owners.new.of_face.items }
    ensures shared { AreShared faces.now (point + 1) owners.new.shared }
{
    let face = faces[point] as usize;
    let owner = owners.of_face[face];
    if owner == 0 {
        owners.of_face[face] = point as u32 + 1;
        return;
    }
    let first = owner - 1;
    let second = point as u32;
    match owners.shared {
        Some(least) if least.first <= first => {}
        _ => owners.shared = Some(Shared { first, second }),
    }
}

/// The first point in face 0.
pub(crate) fn first_outside(faces: &[u32]) -> Option<u32>
    requires few { length faces.now < 2 ^ 30 }
    ensures { IsFirstOutside faces.now result }
{
    for point in 0..faces.len() {
        if faces[point] == 0 {
            return Some(point as u32);
        }
    }
    None
}
