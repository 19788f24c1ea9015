//! The questions of a tree.

use crate::shown::{module, resolution, why_name};
use graph_types::Config;
use module_build::build_one;
use outside::{MemReader, OutsideEnd};
use path_text::is_normal;
use resolve_path::{ManifestCache, RequestKind, resolve};
use std::alloc::{AllocError, Global};
use tree_listing::Listing;

/// A tree that was listed, its configuration, the manifests that were read, and how many reads were told.
#[derive(Drop)]
pub(crate) struct Asked<'a> {
    pub(crate) reader: MemReader<'a>,
    pub(crate) listing: Listing,
    pub(crate) config: Config,
    pub(crate) cache: ManifestCache,
    pub(crate) told: usize,
}

/// The reads behind the first ones of the log.
fn reads_behind(alloc: Global, reader: &MemReader<'_>, first: usize) -> Result<String, AllocError> {
    let mut output = String::new(alloc);
    for (path, why) in reader.log().iter().skip(first) {
        let why = why_name(*why);
        write!(output, "  read {} as {why}\n", path.get())?;
    }
    if output.is_empty() {
        output.push_str("  read nothing\n")?;
    }
    Ok(output)
}

impl Asked<'_> {
    fn build(&mut self, alloc: Global, path: &str) -> Result<String, AllocError> {
        let file = match self.listing.find(path) {
            Some(file) if file.0 < self.listing.count() => file,
            _ => return String::from_str(alloc, "no such file\n"),
        };
        match build_one(
            alloc,
            &mut self.reader,
            &self.listing,
            &self.config,
            &mut self.cache,
            file,
        ) {
            Ok(rec) => module(alloc, &self.listing, &rec),
            Err(OutsideEnd::Failed) => String::from_str(alloc, "Failed\n"),
            Err(OutsideEnd::NoMemory) => Err(AllocError),
        }
    }

    fn ask(
        &mut self,
        alloc: Global,
        question: &str,
        kind: RequestKind,
    ) -> Result<String, AllocError> {
        let Some((folder, request)) = question.split_once('|') else {
            return String::from_str(alloc, "no request\n");
        };
        if !folder.is_empty() && !is_normal(folder) {
            return String::from_str(alloc, "no folder\n");
        }
        match resolve(
            alloc,
            &mut self.reader,
            &self.listing,
            &self.config,
            &mut self.cache,
            folder,
            request,
            kind,
        ) {
            Ok(answer) => resolution(alloc, &self.listing, &answer),
            Err(OutsideEnd::Failed) => String::from_str(alloc, "Failed\n"),
            Err(OutsideEnd::NoMemory) => Err(AllocError),
        }
    }

    /// What was read since this was asked before.
    fn reads(&mut self, alloc: Global) -> Result<String, AllocError> {
        let told = self.told;
        let output = reads_behind(alloc, &self.reader, told)?;
        self.told = self.reader.log().len();
        Ok(output)
    }

    /// The answer to a line, or else the line; none to one that says something of the tree.
    pub(crate) fn answer(&mut self, alloc: Global, line: &str) -> Result<String, AllocError> {
        match line.split_once(' ') {
            Some(("F" | "Z" | "C", _)) => Ok(String::new(alloc)),
            Some(("B", path)) => self.build(alloc, path),
            Some(("I", question)) => self.ask(alloc, question, RequestKind::Import),
            Some(("Q", question)) => self.ask(alloc, question, RequestKind::Require),
            None if line == "T" => Ok(String::new(alloc)),
            None if line == "L" => self.reads(alloc),
            _ => format!(in alloc; "{line}\n"),
        }
    }
}
