//! Stores in memory over folders.
ghost use Rattle.std.specs.Prelude.{◌≡◌, ◌≤◌, [], map, vec_len, vec_capacity, IfOk, IfErr};
ghost use Rattle.host_table.specs.Start.{folder_in};

use host_core::Kept;
use outside::Folder;
use std::alloc::Global;

/// The folder of a store. It needs no memory.
pub fn free<F: Folder>(store: Kept<F>) -> F
    ensures { result ≡ store.folder }
{
    store.into_folder()
}

/// A store over each folder. Where there is no memory the folders come back.
pub(crate) fn keep_all<F: Folder>(alloc: Global, folders: Vec<F>) -> Result<Vec<Kept<F>>, Vec<F>>
    ensures kept { IfOk result (λ stores. map folder_in stores.items ≡ folders.items) }
    ensures back { IfErr result (λ back. back ≡ folders) }
{
    let Ok(mut stores) = Vec::with_capacity(alloc, folders.len()) else {
        return Err(folders);
    };
    let mut rest = folders.into_iter();
    while let Some(folder) = rest.next() {
        stores.push_reserved(Kept::new(alloc, folder));
    }
    Ok(stores)
}

/// The folders of the stores.
pub(crate) fn free_all<F: Folder>(stores: Vec<Kept<F>>, back: &mut Vec<F>)
    requires room { (back.old.items ≡ []) × (vec_len stores ≤ vec_capacity back.old) }
    ensures { back.new.items ≡ map folder_in stores.items }
{
    let mut rest = stores.into_iter();
    while let Some(store) = rest.next() {
        back.push_reserved(free(store));
    }
}
