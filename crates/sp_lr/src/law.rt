// The law of fillings.
ghost use Rattle.std.specs.Prelude.{◌≡◌, List, ℕ, ◌++◌, length};
ghost use Rattle.sp_defs.specs.Partition.{IsPartition};
ghost use Rattle.sp_lr_defs.specs.Filling.{IsChain, IsChainTo, IsFilling, ListsEach, chain_of};
ghost use Rattle.sp_lr_defs.specs.Listing.{chains_over, chains_to, product_pairs};
ghost use Rattle.sp_lr.specs.Results.{IsProduct};

/// For all partitions: the chain of each filling with the first parts of mu as content begins the chain of a filling
/// with all of them. So a search that adds one number after the other never has to turn back, and where it has found
/// more chains than it may on the way, there are more in the end. No two fillings have one chain. And the lists that
/// the answers are named by, of all fillings and of those of one partition, have each filling once, descending by
/// chains, and the product counts them. It takes and answers nothing: its contract is the theorem.
pub fn filling_law()
    ensures extended { (lambda mu later : List ℕ) (chain : List (List ℕ)) → IsPartition lambda →
        IsPartition (mu ++ later) → IsChain lambda mu chain →
        (more : List (List ℕ)) × IsChain lambda (mu ++ later) (chain ++ more) }
    ensures one { (lambda mu nu other : List ℕ) (rows others : List (List ℕ)) → IsPartition lambda →
        IsFilling lambda mu nu rows → IsFilling lambda mu other others →
        chain_of lambda (length mu) rows ≡ chain_of lambda (length mu) others → (nu ≡ other) × (rows ≡ others) }
    ensures lists { (lambda mu : List ℕ) → IsPartition lambda → ListsEach (IsChain lambda mu) (chains_over lambda mu) }
    ensures lists_to { (lambda mu nu : List ℕ) → IsPartition lambda →
        ListsEach (IsChainTo lambda mu nu) (chains_to lambda mu nu) }
    ensures product { (lambda mu : List ℕ) → IsPartition lambda → IsProduct lambda mu (product_pairs lambda mu) }
{}
