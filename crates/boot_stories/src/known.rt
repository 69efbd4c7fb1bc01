//! The files that a story knows of.
use crate::samples::Sample;
use std::alloc::{AllocError, Global};

#[derive(Drop)]
pub(crate) struct Known {
    /// The files that the story begins with.
    pub(crate) samples: Vec<Sample>,
    /// The paths of the files that the story and its runs have written.
    pub(crate) paths: Vec<String>,
}

impl Known {
    /// Takes these for the files that the story begins with.
    pub(crate) fn set_samples(&mut self, samples: Vec<Sample>) {
        self.samples = samples;
    }

    /// Adds a path that isn't among them.
    pub(crate) fn add(&mut self, alloc: Global, path: &str) -> Result<(), AllocError> {
        let path = String::from_str(alloc, path)?;
        if !self.paths.contains(&path) {
            self.paths.push(path)?;
        }
        Ok(())
    }
}
