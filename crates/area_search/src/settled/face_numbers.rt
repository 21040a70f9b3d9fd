// Numbers for the faces beside curves.
ghost use Rattle.std.specs.Prelude.{◌≡◌, ℕ, ◌+◌, ◌*◌, ◌^◌, ◌<◌, ◌≤◌, List, []};
ghost use Rattle.std.specs.Prelude.{◌∷◌, ◌++◌, IfOk, length};
ghost use Rattle.area_search.specs.Settled.CaseSides.{IsBesideIn, beside_at};
ghost use Rattle.area_search.specs.Settled.FaceNumbers.{AreFaceNumbers, faces_met};

use super::case_sides::Beside;
use ports::Memory;
use std::alloc::Global;

/// The number of each face of a mesh among those of the drawing: 0 for face 0, and the next one for
/// each other face that lies beside a curve, in the order of the curves. A face that lies beside
/// none, as that within the tube of a half arc, is no face of the drawing, and has 0.
#[derive(Drop)]
pub(crate) struct FaceNumbers {
    pub of_face: Vec<u32>,
    pub count: u32,
}

/// The numbers of so many faces, by those beside the curves. It takes time linear in the curves and
/// the faces, and 4 bytes a face.
pub(crate) fn numbers_of_faces(
    alloc: Global,
    besides: &[Beside],
    faces: u32,
) -> Result<FaceNumbers, Memory>
    requires few { length besides.now < 2 ^ 30 }
    requires some { 0 < faces }
    requires known { (i : ℕ) → i < length besides.now
        → IsBesideIn faces (beside_at besides.now i) }
    ensures size { IfOk result (λ ns. length ns.of_face.items ≡ faces) }
    ensures numbers { IfOk result (λ ns. AreFaceNumbers (faces_met besides.now) ns.of_face.items
        ns.count) }
{
    let mut numbers = FaceNumbers {
        of_face: vec![in alloc; 0u32; faces as usize]?,
        count: 1,
    };
    for curve in 0..besides.len() {
        add_face(&mut numbers, besides[curve].first);
        add_face(&mut numbers, besides[curve].second);
    }
    Ok(numbers)
}

// Gives the face the next number, if it is not 0 and has none.
fn add_face(numbers: &mut FaceNumbers, face: u32)
    requires known { face < length numbers.old.of_face.items }
    requires room { numbers.old.count + 1 < 2 ^ 32 }
    ensures size { length numbers.new.of_face.items ≡ length numbers.old.of_face.items }
    ensures few { numbers.new.count ≤ numbers.old.count + 1 }
    ensures numbers { (met : List ℕ)
        → AreFaceNumbers met numbers.old.of_face.items numbers.old.count
        → AreFaceNumbers (met ++ (face ∷ [])) numbers.new.of_face.items numbers.new.count }
{
    let entry = face as usize;
    if face != 0 && numbers.of_face[entry] == 0 {
        numbers.of_face[entry] = numbers.count;
        numbers.count += 1;
    }
}
