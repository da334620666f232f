ghost use Rattle.dm_ast.specs.Declarations.{Declaration};
ghost use Rattle.dm_output.specs.Output.{ItemTree};
ghost use Rattle.dm_bounds.specs.Covering.{Covers};
ghost use Rattle.dm_partial_eq.specs.Heads.{IsPartialEq, partial_eq_path};

/// The law that predicates cover calls: of each field that `eq` compares, where its type mentions a parameter, a predicate of the implementation
/// says that the type has the trait, or the declared type itself stands in the field's type. The call does nothing; its clause is the law.
pub fn predicates_cover_calls()
    ensures { (d : Declaration) (item : ItemTree) → IsPartialEq d item → Covers partial_eq_path d item.predicates }
{}
