//! The call `place`.

ghost use Rattle.std.specs.Prelude.{◌≡◌, ◌++◌, IfOk, IfErr, OnOk, None, map};
ghost use Rattle.std.specs.List.{filter_map};
ghost use Rattle.image_place.specs.Placed.{Placed, first_fault, given, place_fault, placed_entries};
ghost use Rattle.image_place.specs.Applying.{AllHaveRanges, AreWhole, HaveRanges, entries_by, entry_by};
ghost use Rattle.image_place.specs.Faults.{TellsFault, definition_faults};
ghost use Rattle.image_place.specs.Laws.{PlacedIsMemory};
ghost use Rattle.image_place.specs.Leading.{faults_by, view_faults};
ghost use Rattle.image_place.specs.Naming.{address_found};
ghost use Rattle.image_place.specs.Views.{TellsPlace, extern_view, placed_view};
ghost use Rattle.image_place.specs.declared.error.PlaceError.TheVariants.{OutOfMemory};

use crate::addresses::Addresses;
use crate::definitions::definitions_of;
use crate::error::PlaceError;
use crate::exports::exports_of;
use crate::fault::{PlaceFault, error_of};
use crate::filling::append_entries;
use crate::grouping::fields_of;
use crate::holding::Definitions;
use crate::homes::homeless_definition;
use crate::judging::view_fault;
use crate::leading::Scene;
use crate::names::outsides;
use crate::objects::object_views;
use crate::ranges::definitions_in;
use crate::rows::{DefAddress, Extern, PlacedBytes};
use crate::twice::second_definition;
use image_view::View;
use std::alloc::Global;
use std::collections::HashMap;

/// The bytes in memory of each definition of x86_64 objects of one format, ELF or Mach-O, with its relocations written
/// into them: an entry for each definition, by image and row. Of several address rows for a definition, or several
/// addresses for a name from outside, the first counts. An error is the first cause in the order of `PlaceError`.
///
/// Of the files of parts, each with the address rows of its definitions and with labels that lie below the end of their
/// functions, each definition's entry holds exactly the memory that its part's commands say.
pub fn place(
    alloc: Global,
    images: &[Vec<u8>],
    addresses: &[DefAddress],
    externs: &[Extern],
) -> Result<Vec<PlacedBytes>, PlaceError>
    ensures placed { IfOk result (λ out. Placed (map (λ b. b.items) images.now) addresses.now (map extern_view externs.now) (map placed_view out.items)) }
    ensures memory { IfOk result (λ out. PlacedIsMemory (map (λ b. b.items) images.now) addresses.now (map extern_view externs.now) (map placed_view out.items)) }
    ensures cause { IfErr result (TellsPlace (map (λ b. b.items) images.now) addresses.now (map extern_view externs.now)) }
{
    let views = object_views(alloc, images)?;
    place_views(alloc, &views, addresses, externs)
}

// The entries of objects, whose sections have as many bytes as their sizes.
fn place_views(
    alloc: Global,
    views: &[View<'_>],
    addresses: &[DefAddress],
    externs: &[Extern],
) -> Result<Vec<PlacedBytes>, PlaceError>
    requires whole { AreWhole views.now }
    ensures none { OnOk result (place_fault views.now addresses.now (map extern_view externs.now) ≡ None) }
    ensures placed { IfOk result (λ out. map placed_view out.items ≡ placed_entries views.now addresses.now (map extern_view externs.now)) }
    ensures cause { IfErr result (TellsFault (place_fault views.now addresses.now (map extern_view externs.now))) }
{
    let addresses = Addresses::new(alloc, addresses)?;
    if let Some(fault) = definitions_fault(alloc, views, &addresses)? {
        return Err(error_of(fault));
    }
    let exports = exports_of(alloc, &addresses, views)?;
    let outsides = outsides(alloc, externs)?;
    place_images(alloc, &exports, &outsides, &addresses, views)
}

// The first refusal of definitions: a second one of a name, then one without a place in memory.
#[tactic(auto, using(crate::proofs::FaultLaws::fault_append))]
fn definitions_fault(
    alloc: Global,
    views: &[View<'_>],
    addresses: &Addresses<'_>,
) -> Result<Option<PlaceFault>, PlaceError>
    ensures ok { IfOk result (λ fault. fault ≡ first_fault (definition_faults views.now addresses.now)) }
    ensures err { IfErr result (λ e. e ≡ OutOfMemory) }
{
    let definitions = definitions_of(alloc, views)?;
    if let Some(fault) = second_definition(alloc, &definitions)? {
        return Ok(Some(fault));
    }
    Ok(homeless_definition(views, addresses, &definitions))
}

// The entries of all images, by what names are bound to.
fn place_images<'s>(
    alloc: Global,
    exports: &'s HashMap<&'s [u8], Option<u64>>,
    outsides: &'s HashMap<&'s [u8], u64>,
    addresses: &'s Addresses<'s>,
    views: &'s [View<'s>],
) -> Result<Vec<PlacedBytes>, PlaceError>
    requires ranges { AllHaveRanges addresses.now views.now }
    ensures none { OnOk result (first_fault (faults_by (address_found exports.now outsides.now) addresses.now views.now) ≡ None) }
    ensures placed { IfOk result (λ out. map placed_view out.items ≡ entries_by (address_found exports.now outsides.now) addresses.now views.now) }
    ensures cause { IfErr result (TellsFault (first_fault (faults_by (address_found exports.now outsides.now) addresses.now views.now))) }
{
    let mut out = Vec::new(alloc);
    for (image, view) in views.iter().enumerate() {
        let rows = definitions_in(alloc, addresses, image, view)?;
        let definitions = Definitions::new(alloc, rows)?;
        let scene = Scene {
            exports: &*exports,
            outsides: &*outsides,
            addresses: &*addresses,
            image,
            view: &*view,
            definitions: &definitions,
        };
        place_image(alloc, scene, &mut out)?;
    }
    Ok(out)
}

// Appends the entries of an image.
fn place_image(
    alloc: Global,
    scene: Scene<'_>,
    out: &mut Vec<PlacedBytes>,
) -> Result<(), PlaceError>
    requires ranges { HaveRanges scene.view.now scene.definitions.now }
    ensures none { OnOk result (first_fault (view_faults (address_found scene.entry.exports.now scene.entry.outsides.now) (given scene.entry.addresses.now scene.entry.image) scene.entry.image scene.entry.view.now scene.entry.definitions.now) ≡ None) }
    ensures placed { OnOk result (map placed_view out.new.items ≡ map placed_view out.old.items
        ++ filter_map (entry_by (address_found scene.entry.exports.now scene.entry.outsides.now) (given scene.entry.addresses.now scene.entry.image)
        scene.entry.image scene.entry.view.now scene.entry.definitions.now) scene.entry.definitions.now) }
    ensures cause { IfErr result (TellsFault (first_fault (view_faults (address_found scene.entry.exports.now scene.entry.outsides.now) (given scene.entry.addresses.now scene.entry.image) scene.entry.image scene.entry.view.now scene.entry.definitions.now))) }
{
    if let Some(fault) = view_fault(scene) {
        return Err(error_of(fault));
    }
    let fields = fields_of(alloc, scene.view, scene.definitions)?;
    append_entries(alloc, scene, &fields, out)?;
    Ok(())
}
