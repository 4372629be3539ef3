//! What the names of a program's text stand for.

use anyhow::{Result, bail};
use gv_base::Name;
use gv_lang::{Local, Proc, Struct};

/// The structs of a program, and its procedures up to the one that is being read.
#[derive(Clone, Copy)]
pub(crate) struct Names<'a> {
    pub structs: &'a [Struct],
    pub procs: &'a [Proc],
}

fn is(name: &Name, said: &str) -> bool {
    name.as_slice() == said.as_bytes()
}

// The place of a local or a field.
fn place_in(locals: &[Local], said: &str) -> Result<u32> {
    for (place, local) in locals.iter().enumerate() {
        if is(&local.name, said) {
            return Ok(u32::try_from(place)?);
        }
    }
    bail!("no local and no field: {said}")
}

// The place of a struct, and the struct.
fn struct_in<'a>(structs: &'a [Struct], said: &str) -> Result<(u32, &'a Struct)> {
    for (place, it) in structs.iter().enumerate() {
        if is(&it.name, said) {
            return Ok((u32::try_from(place)?, it));
        }
    }
    bail!("no struct: {said}")
}

impl Names<'_> {
    /// A local of the procedure that is being read.
    pub(crate) fn local(&self, said: &str) -> Result<u32> {
        match self.procs.last() {
            Some(it) => place_in(it.locals.as_slice(), said),
            None => bail!("no procedure for {said}"),
        }
    }

    pub(crate) fn structure(&self, said: &str) -> Result<u32> {
        let (place, _) = struct_in(self.structs, said)?;
        Ok(place)
    }

    /// A struct and its field, said as `T.f`.
    pub(crate) fn field(&self, said: &str) -> Result<(u32, u32)> {
        let Some((of, field)) = said.split_once('.') else {
            bail!("no field: {said}");
        };
        let (place, it) = struct_in(self.structs, of)?;
        Ok((place, place_in(it.fields.as_slice(), field)?))
    }

    /// A procedure that stands before, or the one that is being read.
    pub(crate) fn procedure(&self, said: &str) -> Result<u32> {
        for (place, it) in self.procs.iter().enumerate() {
            if is(&it.name, said) {
                return Ok(u32::try_from(place)?);
            }
        }
        bail!("no procedure: {said}")
    }
}
