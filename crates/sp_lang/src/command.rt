use crate::{Convention, Name};
use sp_partition::{Items, Partition};

/// A command. Its fields stand in the order of its words.
#[derive(Debug, Drop)]
pub enum Command<'a> {
    /// A line without words, or a comment.
    Nothing,
    /// `partitions n`: the partitions of n.
    Partitions(u8),
    /// `regular e n`: the e-regular partitions of n.
    Regular(u8, u8),
    /// `conjugate p`: the conjugate of p.
    Conjugate(Partition),
    /// `dominates p q`: whether p dominates q.
    Dominates(Partition, Partition),
    /// `diagram e p`: the residues of p, row by row.
    Diagram(u8, Partition),
    /// `hooks p`: the hook lengths of p, row by row.
    Hooks(Partition),
    /// `content e p`: how many nodes of p have each residue.
    Content(u8, Partition),
    /// `core e p`: the e-core of p, its weight and its quotient.
    Core(u8, Partition),
    /// `combine e k Q`: the partition with the core k and the quotient Q.
    Combine(u8, Partition, Items<Partition>),
    /// `abacus e p`: the abacus of p.
    Abacus(u8, Partition),
    /// `good e p`: the normal, good and cogood nodes of p.
    Good(u8, Partition),
    /// `path e mu`: the residues of the path of good nodes to mu.
    Path(u8, Partition),
    /// `mullineux e mu`: the Mullineux image of mu.
    Mullineux(u8, Partition),
    /// `induce e i m p`: the m-th divided power of f_i on p.
    Induce(u8, u8, u8, Partition),
    /// `ladders e mu`: the ladders of mu.
    Ladders(u8, Partition),
    /// `ladder e mu`: the ladder vector of mu, which is a label in the convention in force.
    Ladder(u8, Partition),
    /// `row e mu`: the row of mu, which is a label in the convention in force.
    Row(u8, Partition),
    /// `crystal e n`: the decomposition matrix of degree n, in v.
    Crystal(u8, u8),
    /// `decomposition e n`: the same at v = 1.
    Decomposition(u8, u8),
    /// `block e k w`: the block with the core k and the weight w, at v = 1. A weight past the greatest u64 is that one.
    Block(u8, Partition, u64),
    /// `painter name`: the painter of this name paints from then on.
    Painter(Name<'a>),
    /// `jantzen e p`: the Jantzen sum of p.
    Jantzen(u8, Partition),
    /// `schaper e n`: whether the Jantzen sums of degree n agree with the decomposition matrix.
    Schaper(u8, u8),
    /// `dim p`: the dimension of the Specht module of p.
    Dim(Partition),
    /// `dims e n`: the dimensions of the Specht and the simple modules of the e-regular partitions of n.
    Dims(u8, u8),
    /// `certificate e n`: the certificate of the rows of degree n.
    Certificate(u8, u8),
    /// `check`: whether the certificate in the lines behind it has the rows.
    Check,
    /// `convention c`: labels are those of c from then on.
    Convention(Convention),
    /// `restrict e i p`: e_i on p.
    Restrict(u8, u8, Partition),
    /// `commutator e i j p`: e_i f_j - f_j e_i on p.
    Commutator(u8, u8, u8, Partition),
    /// `branch e i mu`: e_i on the row of mu.
    Branch(u8, u8, Partition),
    /// `product p q`: the product of p and q by the rule of Littlewood and Richardson.
    Product(Partition, Partition),
    /// `fillings p q r`: the fillings over p with the content q that end with r.
    Fillings(Partition, Partition, Partition),
    /// `blocks e n`: the blocks of degree n.
    Blocks(u8, u8),
    /// `inverse e n`: the inverse of the square decomposition matrix of degree n, in v.
    Inverse(u8, u8),
    /// `simple e mu`: the simple module of mu in Specht modules.
    Simple(u8, Partition),
    /// `cartan e n`: the Cartan matrix of degree n.
    Cartan(u8, u8),
}
