//! The folders that a client has open.
ghost use Rattle.std.specs.Prelude.{◌≡◌, [], None, map, option_map, IfOk, OnOk, string_bytes};
ghost use Rattle.lsp_types.specs.Folders.{folder_uris, uris_of, WithPath, WithPaths};

use crate::file_uri::{FileUriFault, path_of_uri};
use crate::lifecycle::InitializeParams;
use crate::workspace::WorkspaceFolder;
use std::alloc::{AllocError, Global};

impl InitializeParams {
    /// Returns the paths of the open folders, in the client's order: those of `workspace_folders`, or that of
    /// `root_uri` if the client has no such list. A URI that names no path, for example one with another scheme, is
    /// left out (`path_of_uri`). The error means that an allocation failed.
    pub fn folder_paths(&self, alloc: Global) -> Result<Vec<String>, AllocError>
        ensures { IfOk result (λ paths. WithPaths
            (folder_uris (option_map (λ folders. folders.items) self.now.workspace_folders)
            (option_map string_bytes self.now.root_uri))
            [] (map string_bytes paths.items)) }
    {
        let mut paths = Vec::new(alloc);
        match &self.workspace_folders {
            Some(folders) => push_paths(alloc, folders.as_slice(), &mut paths)?,
            None => push_root(alloc, &self.root_uri, &mut paths)?,
        }
        Ok(paths)
    }
}

/// Adds the path of the root, if there is one.
fn push_root(
    alloc: Global,
    root: &Option<String>,
    paths: &mut Vec<String>,
) -> Result<(), AllocError>
    ensures { OnOk result (WithPaths (folder_uris None (option_map string_bytes root.now))
        (map string_bytes paths.old.items) (map string_bytes paths.new.items)) }
{
    match root {
        Some(uri) => {
            push_path(alloc, uri.as_str(), paths)?;
            Ok(())
        }
        None => Ok(()),
    }
}

/// Adds the paths of folders.
fn push_paths(
    alloc: Global,
    folders: &[WorkspaceFolder],
    paths: &mut Vec<String>,
) -> Result<(), AllocError>
    ensures { OnOk result (WithPaths (uris_of folders.now)
        (map string_bytes paths.old.items) (map string_bytes paths.new.items)) }
{
    for folder in folders {
        push_path(alloc, folder.uri.as_str(), paths)?;
    }
    Ok(())
}

/// Adds the path that a URI names, if it names one.
fn push_path(alloc: Global, uri: &str, paths: &mut Vec<String>) -> Result<(), AllocError>
    ensures { OnOk result (WithPath uri.now
        (map string_bytes paths.old.items) (map string_bytes paths.new.items)) }
{
    match path_of_uri(alloc, uri) {
        Ok(path) => {
            paths.push(path)?;
            Ok(())
        }
        Err(FileUriFault::Memory) => Err(AllocError),
        Err(_) => Ok(()),
    }
}
