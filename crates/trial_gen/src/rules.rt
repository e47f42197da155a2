// The rules of every trial.
ghost use Rattle.std.specs.Prelude.{◌≡◌};
ghost use Rattle.trial_gen.specs.Rules.{sort_merge};

/// The rules of each trial: sorts as enforcers, a merge join and an index.
pub fn sort_merge() -> &'static str
    ensures { result.now ≡ sort_merge }
{
    "property cost : cost;
property files : set;
property card : num;
property index : symbol;
property order : symbol;
operator RET(D1) : D { D.files = D1.files; D.card = D1.card; }
operator FILTER(D1) : D { D.files = D1.files; D.card = D1.card; }
operator JOIN(D1, D2) : D {
  D.files = union(D1.files, D2.files); D.card = rows(D.files); }
operator JOPR(D1, D2) : D { }
operator SORT(D1) : D { D.files = D1.files; D.card = D1.card; }
algorithm Scan / 1;
algorithm Index / 1;
algorithm Filter / 1;
algorithm Loops / 2;
algorithm Merge_join / 2;
algorithm Merge_sort / 1;
helper rows(s : set) : num = product(x in s : num_at('card, x));
trule commute : JOIN(?1:D1, ?2:D2):D => JOIN(?2, ?1):R
  pre { } test true post { R = D; }
trule associate : JOIN(JOIN(?1:D1, ?2:D2):D3, ?3:D4):D
  => JOIN(?1, JOIN(?2, ?3):R1):R
  pre { } test true post { R = D;
    R1.files = union(D2.files, D4.files); R1.card = rows(R1.files); }
trule sorted : JOIN(?1:D1, ?2:D2):D => JOPR(SORT(?1):R1, SORT(?2):R2):R
  pre { } test true post { R = D;
    R1 = D1; R1.order = 'k; R2 = D2; R2.order = 'k; }
irule scan : RET(?1:D1):D => Scan(?1:E1):E
  pre { } test (D.order == '-) post { E.cost = (E1.cost + D.card); }
irule index : RET(?1:D1):D => Index(?1:E1):E
  pre { } test ((D.order != '-) && (D.order == D1.index))
  post { E.cost = (E1.cost + (2 * D.card)); }
irule filter : FILTER(?1:D1):D => Filter(?1:E1):E
  pre { E1.order = D.order; } test true post { E.cost = (E1.cost + D.card); }
irule loops : JOIN(?1:D1, ?2:D2):D => Loops(?1:E1, ?2:E2):E
  pre { } test (D.order == '-)
  post { E.cost = ((E1.cost + E2.cost) + (D1.card * D2.card)); }
irule merge : JOPR(?1:D1, ?2:D2):D => Merge_join(?1:E1, ?2:E2):E
  pre { } test (D.order == '-)
  post { E.cost = ((E1.cost + E2.cost) + (D1.card + (2 * D2.card))); }
irule null : SORT(?1:D1):D => Null(?1:E1):E
  pre { E1.order = D.order; } test true post { E.cost = E1.cost; }
irule sort : SORT(?1:D1):D => Merge_sort(?1:E1):E
  pre { } test (D.order != '-)
  post { E.cost = (E1.cost + (D.card * log2(D.card))); }
"
}
