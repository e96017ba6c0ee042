// What a certificate says.

use sp_fock::Vector;
use sp_llt::Share;
use sp_partition::{Items, Partition};
use std::marker::Model;

/// A column: an e-regular partition, the shares of earlier columns in its ladder vector, by descending ranks, and the
/// vector that is said to be its row.
#[derive(Drop)]
pub struct Column {
    pub mu: Partition,
    pub shares: Items<Share>,
    pub entries: Vector,
}

/// A certificate: its version, e, its degree, and a column for each e-regular partition of that degree, in version 1
/// ascending, in version 2 block by block.
#[derive(Drop)]
pub struct Certificate {
    version: u8,
    e: u8,
    degree: u8,
    columns: Vec<Column>,
}

impl Model for Certificate {
    ghost use Rattle.sp_cert.specs.Rules.{Listing, listing, IsCertificate};

    ghost Value = { Listing };

    ghost view = { λ a. listing a.version a.e a.degree a.columns.items };

    ghost invariant = { λ a. IsCertificate (listing a.version a.e a.degree a.columns.items) };
}

impl Certificate {
    ghost use Rattle.std.specs.Prelude.{◌≡◌};
    ghost use Rattle.sp_cert.specs.Rules.{listing, IsCertificate};

    /// The certificate with these parts.
    pub fn of(version: u8, e: u8, degree: u8, columns: Vec<Column>) -> Certificate
        requires { IsCertificate (listing version e degree columns.items) }
        ensures { result ≡ listing version e degree columns.items }
    {
        Certificate {
            version,
            e,
            degree,
            columns,
        }
    }

    /// 1 or 2. It takes no memory.
    pub fn version(&self) -> u8
        ensures { result ≡ self.now.version }
    {
        self.version
    }

    /// The e. It takes no memory.
    pub fn e(&self) -> u8
        ensures value { result ≡ self.now.e }
        ensures held { IsCertificate self.now }
    {
        self.e
    }

    /// The degree of its partitions. It takes no memory.
    pub fn degree(&self) -> u8
        ensures { result ≡ self.now.degree }
    {
        self.degree
    }

    /// The columns, in the certificate's order. It takes no memory.
    pub fn columns(&self) -> &[Column]
        ensures value { result.now ≡ self.now.columns }
        ensures held { IsCertificate self.now }
    {
        &self.columns
    }
}
