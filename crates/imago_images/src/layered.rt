// SPDX-License-Identifier: MIT
//! Layers above one another, whose drivers are those of any format.
//!
//! These calls are over any storage: a function that made them over files by their paths would be
//! proved against each method of the driver at that storage, for most of a minute.
ghost use Rattle.std.specs.Prelude.{◌≡◌, ℕ, List, [], ◌∷◌, IfOk};
ghost use Rattle.imago_drivers.specs.Place.{Place};
ghost use Rattle.imago_access.specs.Chain.{driver as driver_of};
ghost use Rattle.imago_images.specs.ImageFiles.{AreNamed, HasStorages};
ghost use Rattle.imago_images.specs.Layers.{IsDriverOf, ShowsLayers, tables_in, tables_of};

use crate::over;
use imago_access::access::FormatAccess;
use imago_any_driver::any::AnyDriver;
use imago_drivers::drivers::FormatDriverInstance;
use imago_storage::storage::Storage;
use std::alloc::{AllocError, Global};

/// The image of a layer with nothing below it.
pub(crate) fn alone<S: Storage>(driver: AnyDriver<S>) -> FormatAccess<AnyDriver<S>>
    ensures driver { driver_of result ≡ «driver» }
    ensures shows { (size : ℕ) (place : ℕ → Place)
        → IsDriverOf ⟦<AnyDriver<S> as FormatDriverInstance>⟧.view size place driver
        → ShowsLayers ⟦<AnyDriver<S> as FormatDriverInstance>⟧.view result size (place ∷ []) }
    ensures tables { tables_of tables_in result ≡ tables_in driver ∷ [] }
    ensures stores { (paths : List (List ℕ))
        → AreNamed (⟦<AnyDriver<S> as FormatDriverInstance>⟧.view driver).stores paths
        → HasStorages ⟦<AnyDriver<S> as FormatDriverInstance>⟧.view result (paths ∷ []) }
{
    over::alone(driver)
}

/// The image of a layer above others.
pub(crate) fn over<S: Storage>(
    alloc: Global,
    driver: AnyDriver<S>,
    below: FormatAccess<AnyDriver<S>>,
) -> Result<FormatAccess<AnyDriver<S>>, AllocError>
    ensures driver { IfOk result (λ x. driver_of x ≡ «driver») }
    ensures shows { (size rest : ℕ) (place : ℕ → Place) (layers : List (ℕ → Place))
        → IsDriverOf ⟦<AnyDriver<S> as FormatDriverInstance>⟧.view size place driver
        → ShowsLayers ⟦<AnyDriver<S> as FormatDriverInstance>⟧.view below rest layers
        → IfOk result (λ x. ShowsLayers ⟦<AnyDriver<S> as FormatDriverInstance>⟧.view x size
        (place ∷ layers)) }
    ensures tables { IfOk result (λ x. tables_of tables_in x
        ≡ tables_in driver ∷ tables_of tables_in below) }
    ensures stores { (paths : List (List ℕ)) (rest : List (List (List ℕ)))
        → AreNamed (⟦<AnyDriver<S> as FormatDriverInstance>⟧.view driver).stores paths
        → HasStorages ⟦<AnyDriver<S> as FormatDriverInstance>⟧.view below rest
        → IfOk result (λ x. HasStorages ⟦<AnyDriver<S> as FormatDriverInstance>⟧.view x
        (paths ∷ rest)) }
{
    over::over(alloc, driver, below)
}

/// The size of an image's disk, in bytes.
pub(crate) fn size<S: Storage>(image: &FormatAccess<AnyDriver<S>>) -> u64
    ensures { result
        ≡ (⟦<AnyDriver<S> as FormatDriverInstance>⟧.view (driver_of image.now)).size }
{
    image.size()
}
