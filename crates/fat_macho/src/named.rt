//! Slices by the names of their architectures.

ghost use Rattle.std.specs.Prelude.{◌≡◌, ◌<◌, length, map, IfSome};
ghost use Rattle.std.specs.List.{position_from};
ghost use Rattle.fat_macho.specs.Named.{is_shape_of, place_named};

use crate::architecture::is_same_arch;
use crate::shape::Shaped;
use goblin_mach::cputype::get_arch_from_flag;

/// The place of the first slice of a name's architecture, None where there is none or the name is unknown.
pub fn place_named<T: Shaped>(slices: &[T], arch: &str) -> Option<usize>
    ensures place { result ≡ place_named (map T.shape slices.now) arch.now }
    ensures inside { IfSome result (λ i. i < length slices.now) }
{
    let pair = get_arch_from_flag(arch)?;
    place_of_arch(slices, pair)
}

// The place of the first slice of this architecture.
fn place_of_arch<T: Shaped>(slices: &[T], pair: (u32, u32)) -> Option<usize>
    ensures place { result ≡ position_from (is_shape_of pair) 0 (map T.shape slices.now) }
    ensures inside { IfSome result (λ i. i < length slices.now) }
{
    for i in 0..slices.len() {
        let shape = slices[i].shape();
        if is_same_arch(pair, (shape.cputype, shape.cpusubtype)) {
            return Some(i);
        }
    }
    None
}
