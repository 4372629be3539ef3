//! The table of members: what each name stands for.

ghost use Rattle.gv_gotypes.specs.Members as members;
ghost use Rattle.gv_gotypes.specs.declared.names.Library.TheVariants.{Sync};
ghost use Rattle.gv_gopackages.specs.Rows.{IsRow};

use gv_goscopes::Signature;
use gv_gotypes::Library;
use gv_operands::{Class, GoType, Kind, Value};

/// A member: a constant, what is called, or a type.
#[derive(Clone, Copy, Debug)]
pub(crate) enum Row {
    Constant(Class),
    Called(Signature<'static>),
    TypeName,
}

/// How many bytes a block of the disk has.
const BLOCK_SIZE: u64 = 4096;

/// `()`
const NOTHING: Signature<'static> = Signature {
    params: &[],
    results: &[],
};

/// `() uint64`
const SIZE: Signature<'static> = Signature {
    params: &[],
    results: &[Some(GoType::Word)],
};

/// `(uint64) []byte`
const DISK_READ: Signature<'static> = Signature {
    params: &[Some(GoType::Word)],
    results: &[Some(GoType::Bytes)],
};

/// `(uint64, []byte)`
const DISK_WRITE: Signature<'static> = Signature {
    params: &[Some(GoType::Word), Some(GoType::Bytes)],
    results: &[],
};

/// `(uint64, uint64) ([]byte, bool)`
const TWODISK_READ: Signature<'static> = Signature {
    params: &[Some(GoType::Word), Some(GoType::Word)],
    results: &[Some(GoType::Bytes), Some(GoType::Boolean)],
};

/// `(uint64, uint64, []byte)`
const TWODISK_WRITE: Signature<'static> = Signature {
    params: &[Some(GoType::Word), Some(GoType::Word), Some(GoType::Bytes)],
    results: &[],
};

/// `([]byte) uint64`
const GET: Signature<'static> = Signature {
    params: &[Some(GoType::Bytes)],
    results: &[Some(GoType::Word)],
};

/// `([]byte, uint64)`
const PUT: Signature<'static> = Signature {
    params: &[Some(GoType::Bytes), Some(GoType::Word)],
    results: &[],
};

fn sync_row(name: &[u8]) -> Option<Row>
    ensures { IsRow result (members.listed (members.library_members Sync) name.now) }
{
    if b"Mutex".as_slice() == name {
        Some(Row::TypeName)
    } else {
        None
    }
}

fn disk_row(name: &[u8]) -> Option<Row>
    ensures { IsRow result (members.listed members.disk_members name.now) }
{
    if b"Read".as_slice() == name {
        Some(Row::Called(DISK_READ))
    } else if b"Write".as_slice() == name {
        Some(Row::Called(DISK_WRITE))
    } else if b"Size".as_slice() == name {
        Some(Row::Called(SIZE))
    } else if b"Barrier".as_slice() == name {
        Some(Row::Called(NOTHING))
    } else if b"BlockSize".as_slice() == name {
        Some(Row::Constant(Class::Fixed(Kind::OfWord, Some(Value::Count(BLOCK_SIZE)))))
    } else if b"Block".as_slice() == name {
        Some(Row::TypeName)
    } else {
        None
    }
}

fn twodisk_row(name: &[u8]) -> Option<Row>
    ensures { IsRow result (members.listed members.twodisk_members name.now) }
{
    if b"Read".as_slice() == name {
        Some(Row::Called(TWODISK_READ))
    } else if b"Write".as_slice() == name {
        Some(Row::Called(TWODISK_WRITE))
    } else if b"Size".as_slice() == name {
        Some(Row::Called(SIZE))
    } else if b"Block".as_slice() == name {
        Some(Row::TypeName)
    } else {
        None
    }
}

fn machine_row(name: &[u8]) -> Option<Row>
    ensures { IsRow result (members.listed members.machine_members name.now) }
{
    if b"UInt64Get".as_slice() == name {
        Some(Row::Called(GET))
    } else if b"UInt64Put".as_slice() == name {
        Some(Row::Called(PUT))
    } else {
        None
    }
}

/// The member of a package with a name.
pub(crate) fn library_row(library: Library, name: &[u8]) -> Option<Row>
    ensures { IsRow result (members.library_member library name.now) }
{
    match library {
        Library::Sync => sync_row(name),
        Library::Disk => disk_row(name),
        Library::TwoDisk => twodisk_row(name),
        Library::Machine => machine_row(name),
    }
}

/// The method of a mutex with a name.
pub(crate) fn mutex_row(name: &[u8]) -> Option<Row>
    ensures { IsRow result (members.listed members.mutex_members name.now) }
{
    if b"Lock".as_slice() == name {
        Some(Row::Called(NOTHING))
    } else if b"Unlock".as_slice() == name {
        Some(Row::Called(NOTHING))
    } else {
        None
    }
}
